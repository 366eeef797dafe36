//! Models and lawful certificates of them.

/// A variable that its only action keeps; being at `yes` is worth 1.
pub const KEEP: &str = "(variables (x yes no))
action stay
x (x (yes (x' (yes (1)) (no (0)))) (no (x' (yes (0)) (no (1)))))
endaction
reward (x (yes (1)) (no (0)))
discount 0.5
tolerance 0.1
";

/// The result of solving it.
pub const KEPT: &str = "spd result 2
model a1e107272379ab8c6bebf4bd78c0c87b8cbb9f360f3561340e076f810c9ad9a3
status done
turn 5
residual 0.015625000
at x=yes above stay
error 0.031250000
value 3
0 leaf 1.968750000
1 leaf 0.000000000
2 branch x 0 1
policy 1
0 leaf stay
end
";

/// The same in version 1.
pub const KEPT_1: &str = "spd result 1
status done
turn 5
residual 0.015625000
at x=yes above stay
error 0.031250000
value 3
0 leaf 1.968750000
1 leaf 0.000000000
2 branch x 0 1
policy 1
0 leaf stay
end
";

/// The digest that the text of version 2 names.
pub const DIGEST: [u8; 32] = [
    0xa1, 0xe1, 0x07, 0x27, 0x23, 0x79, 0xab, 0x8c, 0x6b, 0xeb, 0xf4, 0xbd, 0x78, 0xc0, 0xc8, 0x7b,
    0x8c, 0xbb, 0x9f, 0x36, 0x0f, 0x35, 0x61, 0x34, 0x0e, 0x07, 0x6f, 0x81, 0x0c, 0x9a, 0xd9, 0xa3,
];

/// A variable that takes the next value of the one after it.
pub const FOLLOW: &str = "(variables (x yes no) (y yes no))
action go
x (y' (yes (x' (yes (1)) (no (0)))) (no (x' (yes (0)) (no (1)))))
y (y (yes (y' (yes (1)) (no (0)))) (no (y' (yes (0)) (no (1)))))
endaction
reward (x (yes (1)) (no (0)))
discount 0.5
tolerance 0.1
";

/// A certificate of it. Its value isn't reduced, and its policy's root doesn't reach the first node.
pub const FOLLOWED: &str = "spd result 1
status limit
turn 0
residual 2
at x=no y=yes below go
error 4
value 5
0 leaf 1
1 leaf 0
2 branch y 0 0
3 branch y 1 0
4 branch x 2 3
policy 2
0 leaf go
1 leaf go
end
";
