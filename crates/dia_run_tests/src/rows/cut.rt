//! Messages cut short, and AVPs with a Length that says something else.

pub const ROWS: &str = r"
# A request that is cut short.
fronts 0..44 check kept any | $base | $REQUEST => 1 truncated\n
fronts 44..45 check kept any | $base | $REQUEST => 0 valid DWR\n

# Lengths of an AVP with data of three bytes at most, and others.
check kept any | $base | 0100002c80000118 $I 0000010840000008612e6200 $OR => 1 fault 5004 at 20 leaf-value Origin-Host\n
check kept any | $base | 0100002c80000118 $I 0000010840000009612e6200 $OR => 0 valid DWR\n
check kept any | $base | 0100002c80000118 $I 000001084000000a612e6200 $OR => 0 valid DWR\n
check kept any | $base | $REQUEST => 0 valid DWR\n
check kept any | $base | 0100002c80000118 $I 000001084000000c612e6200 $OR => 1 fault 5004 at 20 leaf-value Origin-Host\n
check kept any | $base | 0100002c80000118 $I 000001084000000d612e6200 $OR => 1 fault 5004 at 20 leaf-value Origin-Host\n
check kept any | $base | 0100002c80000118 $I 0000010840000018612e6200 $OR => 1 fault 5004 at 20 leaf-value Origin-Host\n

# A Vendor-ID from the data.
check kept any | $base | 0100002c80000118 $I 00000108c000000c612e6200 $OR => 1 fault 5001 at 20 unknown 264:1630429696\n

# The limit of levels.
check kept 1 | $base | 0100003c80000118 $I $OH $OR 0000011740000010 0000270f00000008 => 0 valid DWR\n
";
