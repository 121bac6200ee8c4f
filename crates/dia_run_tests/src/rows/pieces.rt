//! How many bytes of each piece a stream takes, when it is done, what it answers then; and how many levels are open.

pub const ROWS: &str = r"
# A header alone is taken where the version is wrong.
take 44/20/done 0/0/done 0/0/done | $base | 0200002c80000118 $I $OH $OR => 1 fault 5011 at 0 version -\n
take 20/20/done 24/0/done 0/0/done | $base | 0200002c80000118 $I $OH $OR => 1 fault 5011 at 0 version -\n
take 19/19/more 25/1/done 0/0/done | $base | 0200002c80000118 $I $OH $OR => 1 fault 5011 at 0 version -\n
take 19/19/more 0/0/more 0/0/more | $base | 0200002c80000118 $I $OH $OR => 1 truncated\n
take 1/1/more 0/0/more 19/19/done | $base | 0200002c80000118 $I => 1 fault 5011 at 0 version -\n
take 44/20/done 0/0/done 0/0/done | $base | 0000000080000118 $I $OH $OR => 1 fault 5011 at 0 version -\n

# A header alone is taken where Message Length is no multiple of four, or under 20.
take 44/20/done 0/0/done 0/0/done | $base | 0100002e80000118 $I $OH $OR => 1 fault 5015 at 1 length -\n
take 20/20/done 24/0/done 0/0/done | $base | 0100002e80000118 $I $OH $OR => 1 fault 5015 at 1 length -\n
take 3/3/more 16/16/more 25/1/done | $base | 0100002e80000118 $I $OH $OR => 1 fault 5015 at 1 length -\n
take 18/18/more 1/1/more 0/0/more | $base | 0100002e80000118 $I $OH $OR => 1 truncated\n
take 44/20/done 0/0/done 0/0/done | $base | 0100001080000118 $I $OH $OR => 1 fault 5015 at 1 length -\n
take 44/20/done 0/0/done 0/0/done | $base | 01ffffff80000118 $I $OH $OR => 1 fault 5015 at 1 length -\n

# A message is taken, and no more.
take 44/44/done 0/0/done 0/0/done | $base | $REQUEST => 0 valid DWR\n
take 45/44/done 0/0/done 0/0/done | $base | 0100002c80000118 $I $OH $OR 00 => 0 valid DWR\n
take 44/44/done 1/0/done 0/0/done | $base | 0100002c80000118 $I $OH $OR 00 => 0 valid DWR\n
take 0/0/more 43/43/more 2/1/done | $base | 0100002c80000118 $I $OH $OR 00 => 0 valid DWR\n
take 1/1/more 30/30/more 14/13/done | $base | 0100002c80000118 $I $OH $OR 00 => 0 valid DWR\n

# A header alone and what follows it; an Origin-Realm that goes past the end of the message.
take 19/19/more 1/1/done 0/0/done | $base | 0100001480000118 $I => 1 fault 5005 at 20 missing Origin-Host\n
take 44/20/done 0/0/done 0/0/done | $base | 0100001480000118 $I $OH $OR => 1 fault 5005 at 20 missing Origin-Host\n
take 20/20/more 24/20/done 0/0/done | $base | 0100002880000118 $I $OH $OR => 1 fault 5014 at 32 avp-length -\n

# What is cut short.
take 0/0/more 0/0/more 0/0/more | $base | $REQUEST => 1 truncated\n
take 19/19/more 0/0/more 0/0/more | $base | $REQUEST => 1 truncated\n
take 20/20/more 0/0/more 0/0/more | $base | $REQUEST => 1 truncated\n
take 32/32/more 11/11/more 0/0/more | $base | $REQUEST => 1 truncated\n
take 44/44/more 0/0/more 0/0/more | $base | 0100003080000118 $I $OH $OR => 1 truncated\n
take 7/7/more 37/37/more 0/0/more | $base | 01fffffc80000118 $I $OH $OR => 1 truncated\n

# Behind a fault of the header bytes are taken to the end.
take 45/44/done 0/0/done 0/0/done | $base | 0100002ca0000118 $I $OH $OR 00 => 1 fault 5013 at 4 bits -\n
take 20/20/more 23/23/more 0/0/more | $base | 0100002ca0000118 $I $OH $OR => 1 truncated\n
take 20/20/more 25/24/done 0/0/done | $base | 0100002c8000012e $I $OH $OR 00 => 1 fault 3001 at 5 command -\n
take 21/21/more 23/23/done 1/0/done | $base | 0100002cc0000118 $I $OH $OR 00 => 1 fault 3008 at 4 proxiable -\n

# And behind a bad AVP Length: that of the Origin-Host is 7.
take 45/44/done 0/0/done 0/0/done | $base | 0100002c80000118 $I 0000010840000007612e6200 $OR 00 => 1 fault 5014 at 20 avp-length -\n
take 28/28/more 16/16/done 1/0/done | $base | 0100002c80000118 $I 0000010840000007612e6200 $OR 00 => 1 fault 5014 at 20 avp-length -\n
take 28/28/more 15/15/more 2/1/done | $base | 0100002c80000118 $I 0000010840000007612e6200 $OR 00 => 1 fault 5014 at 20 avp-length -\n
take 28/28/more 15/15/more 0/0/more | $base | 0100002c80000118 $I 0000010840000007612e6200 $OR 00 => 1 truncated\n

# And behind a fault of an AVP: an Origin-Host that is none; an unknown AVP with M set, and bytes that are no AVPs.
take 44/44/done 0/0/done 0/0/done | $base | 0100002c80000118 $I 000001084000000bff2e6200000001284000000762000000 => 1 fault 5004 at 20 leaf-value Origin-Host\n
take 31/31/more 10/10/more 3/3/done | $base | 0100002c80000118 $I 000001084000000bff2e6200000001284000000762000000 => 1 fault 5004 at 20 leaf-value Origin-Host\n
take 29/29/more 14/14/more 0/0/more | $base | 0100002c80000118 $I 000001084000000bff2e6200000001284000000762000000 => 1 truncated\n
take 28/28/more 8/8/more 8/8/done | $base | 0100002c80000118 $I 0000270f40000008ffffffffffffffffffffffffffffffff => 1 fault 5001 at 20 unknown 9999:0\n
take 28/28/more 15/15/more 0/0/more | $base | 0100002c80000118 $I 0000270f40000008ffffffffffffffffffffffffffffffff => 1 truncated\n

# A watchdog request with three Failed-AVPs in one another, and an unknown AVP in the innermost.
open | $base | 0100004c80000118 $I $OH $OR 0000011700000020 0000011700000018 0000011700000010 0000270f00000008 => 0/0 19/0 20/1 51/1 52/2 59/2 60/3 67/3 68/4 75/4 76/0
";
