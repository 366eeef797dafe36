//! Model files. Those of `tests/stages`, from which they are written by its script.
/// A variable that its only action keeps.
pub const KEEP: &str = "(variables (x yes no))
action stay
x (x (yes (x' (yes (1)) (no (0)))) (no (x' (yes (0)) (no (1)))))
endaction
reward (x (yes (1)) (no (0)))
discount 0.5
tolerance 0.1";
/// A die that is thrown anew, with probabilities that are rounded thirds.
pub const MIX: &str = "(variables (die one two three))
action mix
die (die' (one (0.333333333333)) (two (0.333333333333)) (three (0.333333333334)))
endaction
reward (die (one (1)) (two (0)) (three (0)))
discount 0.5
tolerance 0.1";
/// A die that its only action keeps.
pub const DIE: &str = "(variables (die one two three))
action stay
die (die (one (die' (one (1)) (two (0)) (three (0)))) (two (die' (one (0)) (two (1)) (three (0)))) (three (die' (one (0)) (two (0)) (three (1)))))
endaction
reward (die (one (0)) (two (0.4)) (three (1)))
discount 0.5
tolerance 0.1";
/// Four variables that their only action keeps, with a reward of its own for each of the sixteen states.
pub const SIXTEEN: &str = "(variables (a yes no) (b yes no) (c yes no) (d yes no))
action stay
a (a (yes (a' (yes (1)) (no (0)))) (no (a' (yes (0)) (no (1)))))
b (b (yes (b' (yes (1)) (no (0)))) (no (b' (yes (0)) (no (1)))))
c (c (yes (c' (yes (1)) (no (0)))) (no (c' (yes (0)) (no (1)))))
d (d (yes (d' (yes (1)) (no (0)))) (no (d' (yes (0)) (no (1)))))
endaction
reward (a (yes (b (yes (c (yes (d (yes (1)) (no (2)))) (no (d (yes (3)) (no (4)))))) (no (c (yes (d (yes (5)) (no (6)))) (no (d (yes (7)) (no (8)))))))) (no (b (yes (c (yes (d (yes (9)) (no (10)))) (no (d (yes (11)) (no (12)))))) (no (c (yes (d (yes (13)) (no (14)))) (no (d (yes (15)) (no (16)))))))))
discount 0.5
tolerance 1";
/// A robot fetches coffee; rain makes it wet.
pub const COFFEE: &str = "// A robot fetches coffee; rain makes it wet.
(variables (huc yes no) (hrc yes no) (wet yes no)
           (rain yes no) (umb yes no) (loc office shop))
dd keephuc (huc (yes (huc' (yes (1)) (no (0)))) (no (huc' (yes (0)) (no (1))))) enddd
dd keephrc (hrc (yes (hrc' (yes (1)) (no (0)))) (no (hrc' (yes (0)) (no (1))))) enddd
dd keepwet (wet (yes (wet' (yes (1)) (no (0)))) (no (wet' (yes (0)) (no (1))))) enddd
dd keeprain (rain (yes (rain' (yes (1)) (no (0)))) (no (rain' (yes (0)) (no (1))))) enddd
dd keepumb (umb (yes (umb' (yes (1)) (no (0)))) (no (umb' (yes (0)) (no (1))))) enddd
dd keeploc (loc (office (loc' (office (1)) (shop (0)))) (shop (loc' (office (0)) (shop (1))))) enddd
dd getswet (rain (yes (umb (yes (keepwet)) (no (wet' (yes (1)) (no (0)))))) (no (keepwet))) enddd
action move
  huc (keephuc) hrc (keephrc) wet (getswet) rain (keeprain) umb (keepumb)
  loc (loc (office (loc' (office (0.1)) (shop (0.9)))) (shop (loc' (office (0.9)) (shop (0.1)))))
  cost (0.05)
endaction
action buy
  huc (keephuc)
  hrc (hrc (yes (keephrc)) (no (loc (office (keephrc)) (shop (hrc' (yes (0.9)) (no (0.1)))))))
  wet (keepwet) rain (keeprain) umb (keepumb) loc (keeploc)
  cost (0.1)
endaction
action deliver
  huc (huc (yes (keephuc)) (no (loc (office (hrc (yes (huc' (yes (0.8)) (no (0.2)))) (no (keephuc)))) (shop (keephuc)))))
  hrc (hrc' (yes (0)) (no (1)))
  wet (keepwet) rain (keeprain) umb (keepumb) loc (keeploc)
endaction
action getumbrella
  huc (keephuc) hrc (keephrc) wet (keepwet) rain (keeprain)
  umb (umb (yes (keepumb)) (no (loc (office (umb' (yes (0.9)) (no (0.1)))) (shop (keepumb)))))
  loc (keeploc)
endaction
reward [+ (huc (yes (0.9)) (no (0))) (wet (yes (0)) (no (0.1)))]
discount 0.9
tolerance 0.01";
/// A variable that takes the next value of the one after it.
pub const ARC: &str = "(variables (x yes no) (y yes no))
action go
x (y' (yes (x' (yes (1)) (no (0)))) (no (x' (yes (0)) (no (1)))))
y (y (yes (y' (yes (1)) (no (0)))) (no (y' (yes (0)) (no (1)))))
endaction
reward (x (yes (1)) (no (0)))
discount 0.5
tolerance 0.1";
