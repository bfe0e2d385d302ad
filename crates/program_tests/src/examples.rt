//! Rows of the programs of the folder `examples`, each with a little of its input.

/// What is answered to each, by `run` unless a row says otherwise.
pub(crate) const EXAMPLES: &str = r#"
# The examples are answered as expected.
# first
@first | t.csv: 5␊10␊11␊ | $ check p.spl => 0 ok 3 operators 2 streams␊
@first | t.csv: 5␊10␊11␊ => 0; o.csv 11␊; counts 2:1
# telemetry
@telemetry | $ check p.spl => 0 ok 14 operators 9 streams␊
@telemetry | readings.csv: 1,roof,100␊2,roof,100␊3,roof,100␊4,roof,100␊5,roof,100␊6,roof,190␊7,roof,-400␊8,attic,1251␊9,attic,401␊10,attic,251␊11,roof,-401␊ => 0; failures.csv 8,attic,1251␊11,roof,-401␊; warm.csv 9,attic,401␊10,attic,251␊; hot.csv 9,attic,401␊; statistics.csv 1,roof,100,1,100,100,100␊2,roof,100,2,100,100,100␊3,roof,100,3,100,100,100␊4,roof,100,4,100,100,100␊5,roof,100,5,100,100,100␊6,roof,190,6,100,190,115␊7,roof,-400,7,-400,190,41␊9,attic,401,1,401,401,401␊10,attic,251,2,251,401,326␊; falls.csv 7,roof,-400,7,-400,190,41␊; rises.csv 6,roof,190,6,100,190,115␊; counts 8:2 9:2 10:1 11:9 12:1 13:1
# trades
@trades | $ check p.spl => 0 ok 10 operators 7 streams␊
@trades | trades.csv: 1,Ames,ACME,true,12503,8␊2,Chen,"CORE,B",true,41014,0␊3,"The ""Dock"" Fund",BOLT,false,845,3␊4,Ames,ACME,false,2000000,1␊5,Ames,BOLT,true,-5,2␊ => 0; cancelled.csv 2,Chen,"CORE,B",true,41014,0␊5,Ames,BOLT,true,-5,2␊; small.csv 3,"The ""Dock"" Fund",BOLT,false,2535,150␊; middle.csv 1,Ames,ACME,true,100024,250␊; large.csv 4,Ames,ACME,false,2000000,5000␊; holdings.csv Ames,ACME,7␊"The ""Dock"" Fund",BOLT,-3␊; counts 5:2 6:1 7:1 8:1 9:2
# logs
@logs | $ check p.spl => 0 ok 11 operators 7 streams␊
@logs | lines.csv: "10.0.0.4 - ben [04/May/2026:08:00:00 +0000] ""GET /search?q=tea HTTP/1.1"" 200 3724 ""-"" ""a browser (\""tea\"", of sorts)"""␊"10.0.0.5 - - [04/May/2026:08:00:02 +0000] ""GET /img HTTP/1.1"" 404 - ""-"" ""-"""␊"10.0.0.6 - - [04/May/2026:08:00:03 +0000] ""\x16\x03\x01"" 400 226 ""-"" ""-"""␊"10.0.0.7 - - [04/May/2026:08:00:04 +0000] ""GET /search HTTP/1.1"" 503 100000 ""http://a/b,c"" ""-"""␊ => 0; large.csv 10.0.0.7,04/May/2026:08:00:04,GET,/search,503,100000␊; others.csv "10.0.0.6 - - [04/May/2026:08:00:03 +0000] ""\x16\x03\x01"" 400 226 ""-"" ""-"""␊; refused.csv 10.0.0.5,04/May/2026:08:00:02,GET,/img,404,0␊; failed.csv 10.0.0.7,04/May/2026:08:00:04,GET,/search,503,100000␊; paths.csv /img,1,0,0␊/search,2,1,103724␊; counts 6:1 7:1 8:1 9:1 10:2
# averages: one sensor has ten readings that are measured, another nine
@averages | $ check p.spl => 0 ok 5 operators 4 streams␊
@averages | readings.csv: 1,a,-7␊2,b,9999␊3,a,8␊4,a,9␊5,a,9␊6,b,1␊7,a,9␊8,a,9␊9,a,9␊10,a,9␊11,a,9␊12,a,1251␊13,a,15␊14,a,1␊ => 0; means.csv a,13,7␊; counts 4:1
# highest: the first price leaves with the eleventh
@highest | $ check p.spl => 0 ok 3 operators 2 streams␊
@highest | trades.csv: 1,A,90␊2,A,10␊3,B,7␊4,A,20␊5,A,20␊6,A,20␊7,A,20␊8,A,20␊9,A,20␊10,A,20␊11,A,20␊12,A,30␊13,A,25␊ => 0; range.csv 1,A,90,90,90␊2,A,10,90,10␊3,B,7,7,7␊4,A,20,90,10␊5,A,20,90,10␊6,A,20,90,10␊7,A,20,90,10␊8,A,20,90,10␊9,A,20,90,10␊10,A,20,90,10␊11,A,20,90,10␊12,A,30,30,10␊13,A,25,30,20␊; counts 2:13
# sums: three sales of a shop that reach what a busy one takes, and others that don't count
@sales | $ check p.spl => 0 ok 9 operators 7 streams␊
@sales | sales.csv: 1,bakery,1000,2␊2,books,5000,1␊3,bakery,1000,3␊4,bakery,0,5␊5,bakery,500,2␊6,bakery,100,0␊7,bakery,100,20␊8,books,-5,30␊9,books,999,1␊ => 0; quiet.csv 1,bakery,2000,1␊2,books,5000,1␊3,bakery,5000,2␊9,books,5999,2␊; busy.csv 5,bakery,6000,3␊7,bakery,6000,3␊; bulk.csv 7,bakery,100,20␊; counts 6:4 7:2 8:1
# replay: input after input, and in the order of a record
@bookings | $ check p.spl => 0 ok 6 operators 5 streams␊
@bookings | north.csv: 101,north,Ames,2␊102,north,Chen,2␊103,north,Diaz,1␊ | south.csv: 201,south,Frey,1␊202,south,Gall,3␊203,south,Hahn,1␊ => 0; refused.csv 201,south,Frey,1␊202,south,Gall,3␊203,south,Hahn,1␊; booked.csv 101,north,Ames,2␊102,north,Chen,2␊103,north,Diaz,1␊; counts 4:3 5:3; record 2 0 0 0 0 0 1 1 1 1 1
@bookings | north.csv: 101,north,Ames,2␊102,north,Chen,2␊103,north,Diaz,1␊ | south.csv: 201,south,Frey,1␊202,south,Gall,3␊203,south,Hahn,1␊ | arrivals.txt: arrivals 1␊Bookings 1 0 1 0 1 0 0 0 1 1␊ | $ replay p.spl --arrivals arrivals.txt => 0; refused.csv 202,south,Gall,3␊203,south,Hahn,1␊103,north,Diaz,1␊; booked.csv 201,south,Frey,1␊101,north,Ames,2␊102,north,Chen,2␊; counts 4:3 5:3; record 2 1 0 1 0 1 0 0 0 1 1
# bad-row
@bad_row | $ check p.spl => 0 ok 3 operators 2 streams␊
@bad_row | readings.csv: 1000,attic,212␊1005,cellar,121␊1010,attic,219␊1015,attic,198␊1020,cellar,n/a␊1025,attic,230␊ => 3 stopped Readings BadRow line 5␊; warm.csv 1000,attic,212␊1010,attic,219␊; counts 2:2
# division
@division | $ check p.spl => 0 ok 5 operators 3 streams␊
@division | downloads.csv: index.html,5120,4␊intro.mp4,48500000,3100␊logo.png,18432,9␊empty.txt,0,0␊tour.mp4,91250000,5840␊style.css,2210,1␊ => 3 stopped Speed.Rates DivZero␊; large.csv intro.mp4,48500000,3100␊tour.mp4,91250000,5840␊; rates.csv index.html,1280␊intro.mp4,15645␊logo.png,2048␊; counts 3:2 4:3
# wrong
@wrong | $ check p.spl => 2 refused Y2 at 266␊
@wrong => 2 refused Y2 at 266␊
"#;
