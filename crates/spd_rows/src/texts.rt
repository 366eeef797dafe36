//! The texts of results, as a plain calculation of the rules gives them (`tests/small/reference.py`).

pub const KEEP_RESULT: &str = "spd result 2
model a1e107272379ab8c6bebf4bd78c0c87b8cbb9f360f3561340e076f810c9ad9a3
status done
turn 5
residual 0.015625000
at x=yes above stay
error 0.031250000
value 3
0 leaf 1.968750000
1 leaf 0.000000000
2 branch x 0 1
policy 1
0 leaf stay
end
";

pub const KEEP_AT_ONCE_RESULT: &str = "spd result 2
model 1d1500d0f04a1ab74dc99ba8c758fd9cf13483061dff2195035b314a3e73b9d8
status done
turn 0
residual 0.000000000
at x=yes above stay
error 0.000000000
value 3
0 leaf 1.000000000
1 leaf 0.000000000
2 branch x 0 1
policy 1
0 leaf stay
end
";

pub const KEEP_EXACTLY_RESULT: &str = "spd result 2
model 0bdb5fc78eebb1dcaa096aac69b292654a6cdd05fcc3f2ba1abe9eff7913f84b
status limit
turn 10000
residual 0.000000001
at x=yes above stay
error 0.000000002
value 3
0 leaf 1.999999999
1 leaf 0.000000000
2 branch x 0 1
policy 1
0 leaf stay
end
";

pub const KEEP_OR_HOLD_RESULT: &str = "spd result 2
model 753f1aa3e68a18f983b8c59843746cb5122a3bde373ee1504106c8213edd9c54
status done
turn 5
residual 0.015625000
at x=yes above stay
error 0.031250000
value 3
0 leaf 1.968750000
1 leaf 0.000000000
2 branch x 0 1
policy 1
0 leaf stay
end
";

pub const KEEP_TURNS_2_RESULT: &str = "spd result 2
model a1e107272379ab8c6bebf4bd78c0c87b8cbb9f360f3561340e076f810c9ad9a3
status limit
turn 2
residual 0.125000000
at x=yes above stay
error 0.250000000
value 3
0 leaf 1.750000000
1 leaf 0.000000000
2 branch x 0 1
policy 1
0 leaf stay
end
";

pub const KEEP_FORTUNE_TURNS_2_RESULT: &str = "spd result 2
model 8700d1fc11818661f896c5cf6fad0dda35b3d96cdd3e77b8bfb26e193e99653d
status limit
turn 2
residual 999997000.002999999
at x=yes above stay
error 999997000002999.999000000
value 3
0 leaf 2999997000.001000000
1 leaf -2999997000.001000000
2 branch x 0 1
policy 1
0 leaf stay
end
";

pub const KEEP_FORTUNE_TURNS_50_RESULT: &str = "spd result 2
model 8700d1fc11818661f896c5cf6fad0dda35b3d96cdd3e77b8bfb26e193e99653d
status limit
turn 50
residual 999949001.274979176
at x=yes above stay
error 999949001274979.176000000
value 3
0 leaf 50998725020.824750100
1 leaf -50998725020.824750147
2 branch x 0 1
policy 1
0 leaf stay
end
";

pub const DIE_RESULT: &str = "spd result 2
model 8558ae0b435bf441eebbc1c6ed5323637caddf6ad9f9c1022bd1263ff6cf5bf5
status done
turn 3
residual 0.020833334
at die=one above mix
error 0.041666668
value 3
0 leaf 1.291666666
1 leaf 0.291666666
2 branch die 0 1 1
policy 1
0 leaf mix
end
";

pub const KEPT_DIE_RESULT: &str = "spd result 2
model 8f42f8df84b1c2467b803f6c918f38fe2a5860e2a4aa97f3f73cadb84ce929df
status done
turn 5
residual 0.015625000
at die=three above stay
error 0.031250000
value 4
0 leaf 0.000000000
1 leaf 0.787500000
2 leaf 1.968750000
3 branch die 0 1 2
policy 1
0 leaf stay
end
";

pub const KEPT_DIE_SPAN_1_TURNS_1_RESULT: &str = "spd result 2
model 8f42f8df84b1c2467b803f6c918f38fe2a5860e2a4aa97f3f73cadb84ce929df
status limit
turn 1
residual 0.250000000
at die=two above stay
error 0.500000000
value 3
0 leaf 0.300000000
1 leaf 1.500000000
2 branch die 0 0 1
policy 1
0 leaf stay
end
";

pub const FOUR_KEPT_RESULT: &str = "spd result 2
model e81d716483001ba73ca3fb6760b41bc086d9f050505982470ed5e7ff03dbe082
status done
turn 5
residual 0.250000000
at a=no b=no c=no d=no above stay
error 0.500000000
value 31
0 leaf 1.968750000
1 leaf 3.937500000
2 branch d 0 1
3 leaf 5.906250000
4 leaf 7.875000000
5 branch d 3 4
6 branch c 2 5
7 leaf 9.843750000
8 leaf 11.812500000
9 branch d 7 8
10 leaf 13.781250000
11 leaf 15.750000000
12 branch d 10 11
13 branch c 9 12
14 branch b 6 13
15 leaf 17.718750000
16 leaf 19.687500000
17 branch d 15 16
18 leaf 21.656250000
19 leaf 23.625000000
20 branch d 18 19
21 branch c 17 20
22 leaf 25.593750000
23 leaf 27.562500000
24 branch d 22 23
25 leaf 29.531250000
26 leaf 31.500000000
27 branch d 25 26
28 branch c 24 27
29 branch b 21 28
30 branch a 14 29
policy 1
0 leaf stay
end
";

pub const COFFEE_ROBOT_RESULT: &str = "spd result 2
model a349ff31c77a9687d743b3092d7701d39a40f25741ce85ab5cb3c94da576e62a
status done
turn 72
residual 0.000456778
at huc=no hrc=no wet=no rain=yes umb=yes loc=shop above buy
error 0.004567780
value 29
0 leaf 8.995889013
1 leaf 9.995432237
2 branch wet 0 1
3 leaf 7.377601590
4 leaf 6.511479329
5 branch loc 3 4
6 leaf 8.377144814
7 leaf 7.511022553
8 branch loc 6 7
9 leaf 8.278055520
10 leaf 6.611479329
11 branch loc 9 10
12 branch umb 8 11
13 branch rain 12 8
14 branch wet 5 13
15 leaf 5.005403330
16 leaf 5.685590284
17 branch loc 15 16
18 leaf 6.004946555
19 leaf 6.685133507
20 branch loc 18 19
21 leaf 5.454450476
22 leaf 5.884491383
23 branch loc 21 22
24 branch umb 20 23
25 branch rain 24 20
26 branch wet 17 25
27 branch hrc 14 26
28 branch huc 2 27
policy 12
0 leaf deliver
1 leaf move
2 branch loc 0 1
3 leaf buy
4 branch loc 1 3
5 leaf getumbrella
6 branch loc 5 3
7 branch umb 4 6
8 branch rain 7 4
9 branch wet 4 8
10 branch hrc 2 9
11 branch huc 0 10
end
";

pub const ONLY_RESULT: &str = "spd result 2
model 783e7aeecd1ebc7812da380e89ccbceda94deeeb21b0ea61edfa169a870f25db
status done
turn 0
residual 2.500000000
at x=only above a
error 5.000000000
value 1
0 leaf 5.000000000
policy 1
0 leaf a
end
";

pub const ONLY_LOSES_RESULT: &str = "spd result 2
model f29413bc3d7a76a7dd6062fdac52e63d81091fe29b46ee52d42cc21c16eb28f3
status done
turn 1
residual 0.000000000
at x=only above a
error 0.000000000
value 1
0 leaf -0.000000002
policy 1
0 leaf a
end
";

pub const ONLY_LOSES_TURNS_0_RESULT: &str = "spd result 2
model f29413bc3d7a76a7dd6062fdac52e63d81091fe29b46ee52d42cc21c16eb28f3
status limit
turn 0
residual 0.000000001
at x=only below a
error 0.000000002
value 1
0 leaf -0.000000001
policy 1
0 leaf a
end
";

pub const FOLLOWS_RESULT: &str = "spd result 2
model 78965aaf9ba3fbed43a0343f12bbf48bd62cc0ef1e46728f157cfa3196b681f4
status done
turn 5
residual 0.015625000
at x=yes y=yes above go
error 0.031250000
value 7
0 leaf 1.968750000
1 leaf 1.000000000
2 branch y 0 1
3 leaf 0.968750000
4 leaf 0.000000000
5 branch y 3 4
6 branch x 2 5
policy 1
0 leaf go
end
";

pub const LAMP_RESULT: &str = "spd result 2
model 43e158512e19e7ee07440edf2bc94b356da822997ea4f1c2cc358f66a9041bf2
status done
turn 5
residual 0.015625000
at lamp=on above stay
error 0.031250000
value 1
0 leaf 1.968750000
policy 1
0 leaf stay
end
";

pub const LAMP_TURNS_2_RESULT: &str = "spd result 2
model 43e158512e19e7ee07440edf2bc94b356da822997ea4f1c2cc358f66a9041bf2
status limit
turn 2
residual 0.125000000
at lamp=on above stay
error 0.250000000
value 1
0 leaf 1.750000000
policy 1
0 leaf stay
end
";

pub const MIXED_RESULT: &str = "spd result 2
model b9121ce9ed5dfb20251a41ebd24f3d372d513372acb3693f534adb5da125b13b
status done
turn 7
residual 0.004529746
at fuel=low crop=2.5 door=d road=1 below act1
error 0.018118984
value 32
0 leaf -0.280478428
1 leaf 0.063086404
2 branch road 0 1
3 leaf -0.449353475
4 leaf -0.105788642
5 branch road 3 4
6 leaf -1.427796352
7 leaf -1.084231519
8 branch road 6 7
9 branch door 2 5 8
10 leaf 0.350646525
11 leaf 0.694211358
12 branch road 10 11
13 leaf -1.049353475
14 leaf -0.705788642
15 branch road 13 14
16 branch door 2 12 15
17 leaf -1.005399433
18 leaf -0.661834600
19 branch road 17 18
20 leaf -0.049353475
21 leaf 0.294211358
22 branch road 20 21
23 branch door 2 19 22
24 leaf -0.553957805
25 leaf -0.210392972
26 branch road 24 25
27 leaf -1.408713027
28 leaf -1.065148194
29 branch road 27 28
30 branch door 2 26 29
31 branch fuel 9 16 23 30
policy 1
0 leaf act1
end
";

pub const ALL_RESULT: &str = "spd result 2
model 29d570c2c9fe423165228b7f53ba7c551448334f7a19f5e09da1abafc6ec0df7
status done
turn 5
residual 0.017578125
at lamp=on left=down right=up above wait
error 0.035156250
value 14
0 leaf 0.707152924
1 leaf 0.398700727
2 branch right 0 1
3 leaf 0.832152924
4 leaf 0.523700727
5 branch right 3 4
6 branch left 2 5
7 leaf 0.984375000
8 leaf 1.230468750
9 branch left 7 8
10 leaf 1.968750000
11 leaf 2.214843750
12 branch left 10 11
13 branch lamp 6 9 12
policy 3
0 leaf press
1 leaf wait
2 branch lamp 0 1 1
end
";
