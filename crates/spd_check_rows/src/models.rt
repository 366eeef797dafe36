//! Model files of the tests.

/// A variable that its only action keeps; being at `yes` is worth 1.
pub const KEEP: &str = "(variables (x yes no))
action stay
x (x (yes (x' (yes (1)) (no (0)))) (no (x' (yes (0)) (no (1)))))
endaction
reward (x (yes (1)) (no (0)))
discount 0.5
tolerance 0.1
";

/// The same with a second action that does what the first does.
pub const KEEP_OR_HOLD: &str = "(variables (x yes no))
action stay
x (x (yes (x' (yes (1)) (no (0)))) (no (x' (yes (0)) (no (1)))))
endaction
action hold
x (x (yes (x' (yes (1)) (no (0)))) (no (x' (yes (0)) (no (1)))))
endaction
reward (x (yes (1)) (no (0)))
discount 0.5
tolerance 0.1
";

/// A die that is thrown anew in each step.
pub const DIE: &str = "(variables (die one two three))
action mix
die (die' (one (0.333333333333)) (two (0.333333333333)) (three (0.333333333334)))
endaction
reward (die (one (1)) (two (0)) (three (0)))
discount 0.5
tolerance 0.1
";

/// A robot fetches coffee; rain makes it wet.
pub const COFFEE_ROBOT: &str = "// A robot fetches coffee; rain makes it wet.
(variables (huc yes no) (hrc yes no) (wet yes no)
           (rain yes no) (umb yes no) (loc office shop))
dd keephuc (huc (yes (huc' (yes (1)) (no (0)))) (no (huc' (yes (0)) (no (1))))) enddd
dd keephrc (hrc (yes (hrc' (yes (1)) (no (0)))) (no (hrc' (yes (0)) (no (1))))) enddd
dd keepwet (wet (yes (wet' (yes (1)) (no (0)))) (no (wet' (yes (0)) (no (1))))) enddd
dd keeprain (rain (yes (rain' (yes (1)) (no (0)))) (no (rain' (yes (0)) (no (1))))) enddd
dd keepumb (umb (yes (umb' (yes (1)) (no (0)))) (no (umb' (yes (0)) (no (1))))) enddd
dd keeploc (loc (office (loc' (office (1)) (shop (0)))) (shop (loc' (office (0)) (shop (1))))) enddd
dd getswet (rain (yes (umb (yes (keepwet)) (no (wet' (yes (1)) (no (0)))))) (no (keepwet))) enddd
action move
  huc (keephuc) hrc (keephrc) wet (getswet) rain (keeprain) umb (keepumb)
  loc (loc (office (loc' (office (0.1)) (shop (0.9)))) (shop (loc' (office (0.9)) (shop (0.1)))))
  cost (0.05)
endaction
action buy
  huc (keephuc)
  hrc (hrc (yes (keephrc)) (no (loc (office (keephrc)) (shop (hrc' (yes (0.9)) (no (0.1)))))))
  wet (keepwet) rain (keeprain) umb (keepumb) loc (keeploc)
  cost (0.1)
endaction
action deliver
  huc (huc (yes (keephuc)) (no (loc (office (hrc (yes (huc' (yes (0.8)) (no (0.2)))) (no (keephuc)))) (shop (keephuc)))))
  hrc (hrc' (yes (0)) (no (1)))
  wet (keepwet) rain (keeprain) umb (keepumb) loc (keeploc)
endaction
action getumbrella
  huc (keephuc) hrc (keephrc) wet (keepwet) rain (keeprain)
  umb (umb (yes (keepumb)) (no (loc (office (umb' (yes (0.9)) (no (0.1)))) (shop (keepumb)))))
  loc (keeploc)
endaction
reward [+ (huc (yes (0.9)) (no (0))) (wet (yes (0)) (no (0.1)))]
discount 0.9
tolerance 0.01
";

/// A variable with one value, with the least loss and a tolerance of 0.
pub const ONLY_LOSES: &str = "(variables (x only))
action a
x (x' (only (1)))
endaction
reward (-0.000000001)
discount 0.5
tolerance 0
";

/// Four variables of one to four values, with diagrams, costs and an arc between next values.
pub const MIXED: &str = "// Values one to four, arcs, costs, sums and names.
(variables (fuel low 2.5 on c) (crop 2.5) (door d low 2.5) (road 1 d))
dd next-fuel (crop (2.5 (fuel' (low (0)) (2.5 (1)) (on (0)) (c (0))))) enddd
dd next-crop (crop' (2.5 (1))) enddd
dd next-door (door' (d (0.132414545822)) (low (0.016409102201)) (2.5 (0.851176351977))) enddd
dd next-road (fuel (low (door (d (road' (1 (0.602240650979)) (d (0.397759349021)))) (low (road' (1 (0.75891932961)) (d (0.24108067039)))) (2.5 (road' (1 (0.29)) (d (0.71)))))) (2.5 (road' (1 (0.191103393457)) (d (0.808896606543)))) (on (door (d (road' (1 (0.500669988773)) (d (0.499330011227)))) (low (road' (1 (0.748291973611)) (d (0.251708026389)))) (2.5 (road' (1 (0.96)) (d (0.04)))))) (c (door (d (road' (1 (0.399301639002)) (d (0.600698360998)))) (low (road' (1 (0.25)) (d (0.75)))) (2.5 (road' (1 (0.986755677484)) (d (0.013244322516))))))) enddd
action act0
door (crop (2.5 (road' (d (door' (d (0.3)) (low (0.15)) (2.5 (0.55)))) (1 (door' (d (0.645141377737)) (low (0.111117102715)) (2.5 (0.243741519548)))))))
fuel (door (d (crop' (2.5 (fuel' (low (0.15)) (2.5 (0.03)) (on (0.14)) (c (0.68)))))) (low (crop' (2.5 (fuel' (low (0.47)) (2.5 (0.07)) (on (0.36)) (c (0.1)))))) (2.5 (crop' (2.5 (fuel' (low (0.433214484345)) (2.5 (0.022222680668)) (on (0.202615453859)) (c (0.341947381128)))))))
crop (road (1 (door' (low (crop' (2.5 (1)))) (d (crop' (2.5 (1)))) (2.5 (crop' (2.5 (1)))))) (d (door' (d (crop' (2.5 (1)))) (2.5 (crop' (2.5 (1)))) (low (crop' (2.5 (1)))))))
road (next-road)
cost (door (d (0)) (low (0.294854831)) (2.5 (0)))
endaction
action act1
crop (crop' (2.5 (1)))
road (door (d (crop (2.5 (road' (1 (0.592869443847)) (d (0.407130556153)))))) (low (crop (2.5 (road' (1 (1)) (d (0)))))) (2.5 (crop (2.5 (road' (1 (1)) (d (0)))))))
door (road (1 (door' (d (0.67)) (low (0.14)) (2.5 (0.19)))) (d (door' (d (0.126267660065)) (low (0.765820479859)) (2.5 (0.107911860076)))))
fuel (next-fuel)
endaction
reward [+ (fuel (low (door (d (0)) (low (0)) (2.5 (-0.378442877)))) (2.5 (door (d (0)) (low (0.8)) (2.5 (0)))) (on (door (d (0)) (low (-0.556045958)) (2.5 (1)))) (c (door (d (0)) (low (-0.10460433)) (2.5 (-0.359359552))))) (door (d (-0.136259584)) (low (-0.2)) (2.5 (-0.8)))]
discount 0.75
tolerance 0.05
";

/// A variable that follows the next value of a later one.
pub const FOLLOWS: &str = "(variables (x yes no) (y yes no))
action go
x (y' (yes (x' (yes (1)) (no (0)))) (no (x' (yes (0)) (no (1)))))
y (y (yes (y' (yes (1)) (no (0)))) (no (y' (yes (0)) (no (1)))))
endaction
reward (x (yes (1)) (no (0)))
discount 0.5
tolerance 0.1
";

/// A variable that one action keeps, and that another one makes `no`; being at `yes` is worth 1.
pub const LEAVE_OR_STAY: &str = "(variables (x yes no))
action leave
x (x' (yes (0)) (no (1)))
endaction
action stay
x (x (yes (x' (yes (1)) (no (0)))) (no (x' (yes (0)) (no (1)))))
endaction
reward (x (yes (1)) (no (0)))
discount 0.5
tolerance 0.1
";

/// A die whose probabilities sum to 0.9999.
pub const LOADED_DIE: &str = "(variables (die one two three))
action mix
die (die' (one (0.3333)) (two (0.3333)) (three (0.3333)))
endaction
reward (die (one (1)) (two (0)) (three (0)))
discount 0.5
tolerance 0.1
";

/// A variable that its only action keeps, with a reward above 10^9 at both values.
pub const KEEP_RICH: &str = "(variables (x yes no))
action stay
x (x (yes (x' (yes (1)) (no (0)))) (no (x' (yes (0)) (no (1)))))
endaction
reward [+ (1000000000) (0.000000001)]
discount 0.5
tolerance 0.1
";

/// A machine that breaks one time in ten when it is left alone, and that may be repaired.
pub const MACHINE: &str = "(variables (machine up down))
action wait
machine (machine (up (machine' (up (0.9)) (down (0.1)))) (down (machine' (up (0)) (down (1)))))
endaction
action repair
machine (machine' (up (0.95)) (down (0.05)))
cost (2)
endaction
reward (machine (up (10)) (down (0)))
discount 0.9
tolerance 0.1
";
