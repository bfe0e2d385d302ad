//! The rows of sources, and where a source ends with a fault.

pub(crate) const SOURCES: &str = r#"
# Each line of a source is a row of numbers.
@first | t.csv: 20␊x␊30␊ => 3 stopped T BadRow line 2␊; o.csv 20␊; counts 2:1
@first format: csv; → format: csv; parsing: permissive; | t.csv: 20␊x␊30␊ => 0; o.csv 20␊30␊; counts 2:2
@first | t.csv: 11␊␊12␊ => 0; o.csv 11␊12␊; counts 2:2
@first | t.csv: ␊ => 0; o.csv ∅; counts 2:0
@first | t.csv: 11␍␊ => 0; o.csv 11␊; counts 2:1
@first | t.csv: ␣11␊ => 3 stopped T BadRow line 1␊; o.csv ∅; counts 2:0
@first | t.csv: 11 ␊ => 3 stopped T BadRow line 1␊; o.csv ∅; counts 2:0
@first | t.csv: +11␊ => 3 stopped T BadRow line 1␊; o.csv ∅; counts 2:0
@first | t.csv: 1.5␊ => 3 stopped T BadRow line 1␊; o.csv ∅; counts 2:0
@first | t.csv: 11,12␊ => 3 stopped T BadRow line 1␊; o.csv ∅; counts 2:0
@first | t.csv: "11"␊ => 0; o.csv 11␊; counts 2:1
@first | t.csv: 11␊-␊ => 3 stopped T BadRow line 2␊; o.csv 11␊; counts 2:1
@first | t.csv: --1␊ => 3 stopped T BadRow line 1␊; o.csv ∅; counts 2:0
@first | t.csv: 0x10␊ => 3 stopped T BadRow line 1␊; o.csv ∅; counts 2:0
@first | t.csv: 00000000000000000000000000000011␊ => 0; o.csv 11␊; counts 2:1
@first | t.csv: 11␊12␊x => 3 stopped T BadRow line 3␊; o.csv 11␊12␊; counts 2:2
@first | t.csv: ◆11␊◆12␊ => 0; o.csv 11␊12␊; counts 2:2

# Each type has its numbers and no others.
@rows int8 a, int16 b, int32 c, int64 d | t.csv: -128,-32768,-2147483648,-9223372036854775808␊127,32767,2147483647,9223372036854775807␊ => 0; o.csv -128,-32768,-2147483648,-9223372036854775808␊127,32767,2147483647,9223372036854775807␊; counts 1:2
@rows uint8 a, uint16 b, uint32 c, uint64 d | t.csv: 255,65535,4294967295,18446744073709551615␊-0,0,00,0␊ => 0; o.csv 255,65535,4294967295,18446744073709551615␊0,0,0,0␊; counts 1:2
@rows int8 n | t.csv: 127␊128␊ => 3 stopped T BadRow line 2␊; o.csv 127␊; counts 1:1
@rows int16 n | t.csv: -32769␊ => 3 stopped T BadRow line 1␊; o.csv ∅; counts 1:0
@rows int32 n | t.csv: 2147483648␊ => 3 stopped T BadRow line 1␊; o.csv ∅; counts 1:0
@rows int64 n | t.csv: -9223372036854775809␊ => 3 stopped T BadRow line 1␊; o.csv ∅; counts 1:0
@rows uint8 n | t.csv: 255␊-1␊ => 3 stopped T BadRow line 2␊; o.csv 255␊; counts 1:1
@rows uint16 n | t.csv: 65536␊ => 3 stopped T BadRow line 1␊; o.csv ∅; counts 1:0
@rows uint32 n | t.csv: 4294967296␊ => 3 stopped T BadRow line 1␊; o.csv ∅; counts 1:0
@rows uint64 n | t.csv: 18446744073709551616␊ => 3 stopped T BadRow line 1␊; o.csv ∅; counts 1:0
@rows boolean b | t.csv: true␊false␊True␊ => 3 stopped T BadRow line 3␊; o.csv true␊false␊; counts 1:2
@rows boolean b | t.csv: 1␊ => 3 stopped T BadRow line 1␊; o.csv ∅; counts 1:0

# A row has a field for each attribute.
@rows int64 n, rstring s | t.csv: 1,a␊2␊ => 3 stopped T BadRow line 2␊; o.csv 1,a␊; counts 1:1
@rows int64 n, rstring s | t.csv: 1,a␊2,b,c␊ => 3 stopped T BadRow line 2␊; o.csv 1,a␊; counts 1:1
@rows rstring s, int64 n, boolean b | t.csv: a,1,true␊,-2,false␊ => 0; o.csv a,1,true␊,-2,false␊; counts 1:2
@rows rstring s, rstring u | t.csv: ,␊ b ,# c␊ => 0; o.csv ,␊ b ,# c␊; counts 1:2
@rows rstring s | t.csv: ""␊a␊ => 0; o.csv ""␊a␊; counts 1:2

# Quotes, and carriage returns.
@rows rstring s, int64 n | t.csv: "a,b",1␊"say ""hi""",2␊a"b,"3"␊"a"b,4␊"open,5␊6,6␊ => 3 stopped T BadRow line 5␊; o.csv "a,b",1␊"say ""hi""",2␊"a""b",3␊ab,4␊; counts 1:4
@rows rstring s | t.csv: a␍␊b␍␍␊␍␊"c␍␊d␍e␊ => 3 stopped T BadRow line 5␊; o.csv a␊b␊"c␍"␊; counts 1:3

# A permissive source passes over rows that are bad.
@permissive int64 n | t.csv: 1␊x␊2,3␊␊-␊1␍2␊-4␊ => 0; o.csv 1␊-4␊; counts 1:2
@permissive int8 n, boolean b | t.csv: 128,true␊127,true␊1␊1,0␊ => 0; o.csv 127,true␊; counts 1:1
@permissive rstring s | t.csv: @times 65537 x ␊a␊ => 3 stopped T LongRow line 1␊; o.csv ∅; counts 1:0
@permissive int64 n | t.csv: x␊20␊ | fail read 2 t.csv => 3 stopped T ReadFailed line 3␊; o.csv 20␊; counts 1:1

# A row is 65,536 bytes at most, and a file isn't bound to a mebibyte.
@op rstring s → stream<T> B = Filter(T) { } | t.csv: @times 65536 x => 0; o.csv of 65537 bytes; counts 2:1
@op rstring s → stream<T> B = Filter(T) { } | t.csv: @times 65537 x => 3 stopped T LongRow line 1␊; o.csv ∅; counts 2:0
@rows rstring s | t.csv: @times 65536 x ␊a␊ => 0; o.csv of 65539 bytes; counts 1:2
@rows int64 n | t.csv: @times 65537 0 => 3 stopped T LongRow line 1␊; o.csv ∅; counts 1:0
@pair | a.csv: 1␊ | b.csv: @times 65537 000000000000011␊ => 0; x.csv 1␊; y.csv of 196611 bytes; counts 2:1 3:65537

# A read that fails ends the source behind the lines that were read before it.
@first | t.csv: 20␊30␊ | fail read 2 t.csv => 3 stopped T ReadFailed line 3␊; o.csv 20␊30␊; counts 2:2
@first | t.csv: 20␊30␊ | fail read 1 t.csv => 3 stopped T ReadFailed line 1␊; o.csv ∅; counts 2:0
@first | t.csv: ∅ | fail read 1 t.csv => 3 stopped T ReadFailed line 1␊; o.csv ∅; counts 2:0
@first | t.csv: 20␊30 | fail read 2 t.csv => 3 stopped T ReadFailed line 2␊; o.csv 20␊; counts 2:1
@first | t.csv: 20␊30␊ | fail read 3 t.csv => 0; o.csv 20␊30␊; counts 2:2
@first | t.csv: 20␊x␊30␊ | fail read 2 t.csv => 3 stopped T BadRow line 2␊; o.csv 20␊; counts 2:1
@first | t.csv: @times 600 000000000000011␊ | fail read 2 t.csv => 3 stopped T ReadFailed line 513␊; o.csv of 1536 bytes; counts 2:512
@first | t.csv: @times 600 00000000000011␊ | fail read 2 t.csv => 3 stopped T ReadFailed line 547␊; o.csv of 1638 bytes; counts 2:546
@first | t.csv: @times 600 000000000000011␊ | fail read 3 t.csv => 3 stopped T ReadFailed line 601␊; o.csv of 1800 bytes; counts 2:600
@rows rstring s | t.csv: @times 73728 x | fail read 9 t.csv => 3 stopped T ReadFailed line 1␊; o.csv ∅; counts 1:0
@rows rstring s | t.csv: @times 73728 x | fail read 10 t.csv => 3 stopped T LongRow line 1␊; o.csv ∅; counts 1:0

# Of several sources the first end with a fault tells it, with its own line.
@pair | a.csv: 1␊2␊x␊ | b.csv: y␊ => 3 stopped A BadRow line 3␊; x.csv 1␊2␊; y.csv ∅; counts 2:2 3:0
@pair | a.csv: 1␊2␊ | b.csv: 3␊4␊y␊ => 3 stopped B BadRow line 3␊; x.csv 1␊2␊; y.csv 3␊4␊; counts 2:2 3:2
@pair | a.csv: x␊ | b.csv: 3␊ | fail read 1 b.csv => 3 stopped A BadRow line 1␊; x.csv ∅; y.csv ∅; counts 2:0 3:0
# sinks before their sources
composite Main {graph () as Y = FileSink(B) {param file: "y.csv";} () as X = FileSink(A) {param file: "x.csv";} stream<int64 n> A = FileSource() {param file: "a.csv";} stream<int64 n> B = FileSource() {param file: "b.csv";}} | a.csv: x␊ | b.csv: 3␊y␊ => 3 stopped B BadRow line 2␊; x.csv ∅; y.csv 3␊; counts 0:1 1:0
# a source that nobody reads
composite Main {graph stream<int64 n> S = FileSource() {param file: "s.csv";} stream<int64 n> T = FileSource() {param file: "t.csv";} () as Out = FileSink(T) {param file: "o.csv";}} | s.csv: 7␊x␊ | t.csv: 1␊ => 3 stopped S BadRow line 2␊; o.csv 1␊; counts 2:1
# a file that two sources read, one of them as numbers
composite Main {graph stream<int64 n> S = FileSource() {param file: "t.csv"; parsing: strict;} stream<rstring s> T = FileSource() {param file: "t.csv";} () as X = FileSink(S) {param file: "x.csv";} () as Y = FileSink(T) {param file: "y.csv";}} | t.csv: 1␊x␊2␊ => 3 stopped S BadRow line 2␊; x.csv 1␊; y.csv 1␊x␊2␊; counts 2:1 3:3
# the program as its own source
composite Main {graph stream<int64 n> T = FileSource() {param file: "p.spl";} () as Out = FileSink(T) {param file: "o.csv";}} => 3 stopped T BadRow line 1␊; o.csv ∅; counts 1:0
# a fault before that of a Filter
@filter 100l / price > 1l | t.csv: 20␊x␊0␊ => 3 stopped T BadRow line 2␊; o.csv 20␊; counts 2:1
# a Filter's fault before that of the source
@filter 100l / price > 1l | t.csv: 20␊0␊x␊ => 3 stopped B DivZero␊; o.csv 20␊; counts 2:1
# a refused program over such a source
composite Main {graph stream<int64 n> T = FileSource() {param file: "t.csv";} () as Out = FileSink(T);} | t.csv: x␊ => 2 refused C1 at 78 file␊
"#;
