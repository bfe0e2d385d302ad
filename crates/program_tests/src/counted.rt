//! What `run` tells with the option `--counts`: a line for each sink, and then the line of a fault.

pub(crate) const COUNTED: &str = r#"
# A run tells how many tuples its sink wrote.
@first | t.csv: 5␊10␊11␊ => 0 sink Out tuples 1␊; o.csv 11␊; counts 2:1
@first | t.csv: 20␊30␊ => 0 sink Out tuples 2␊; o.csv 20␊30␊; counts 2:2
# none
@first | t.csv: ∅ => 0 sink Out tuples 0␊; o.csv ∅; counts 2:0
@first | t.csv: 1␊2␊3␊ => 0 sink Out tuples 0␊; o.csv ∅; counts 2:0
# many
@first | t.csv: @times 1200 11␊ => 0 sink Out tuples 1200␊; o.csv of 3600 bytes; counts 2:1200
# the option in front of the file's name
@first | t.csv: 5␊10␊11␊ | $ run --counts p.spl => 0 sink Out tuples 1␊; o.csv 11␊; counts 2:1
# markers are no tuples
@op int64 n → stream<T> B = Punctor(T) {param punctuation: true; position: after;} | t.csv: 1␊2␊ => 0 sink Out tuples 2␊; o.csv 1␊2␊; counts 2:2
# a tuple whose row has two lines
@op int64 n → stream<rstring s> B = Functor(T) {output B: s = "a\nb";} | t.csv: 1␊ => 0 sink Out tuples 1␊; o.csv "a␊b"␊; counts 2:1

# Each sink has a line, in the order of the operators.
@pair | a.csv: 1␊2␊ | b.csv: 3␊ => 0 sink X tuples 2␊sink Y tuples 1␊; x.csv 1␊2␊; y.csv 3␊; counts 2:2 3:1
# sinks before their sources
composite Main {graph () as Y = FileSink(B) {param file: "y.csv";} () as X = FileSink(A) {param file: "x.csv";} stream<int64 n> B = FileSource() {param file: "b.csv";} stream<int64 n> A = FileSource() {param file: "a.csv";}} | a.csv: 1␊2␊ | b.csv: 3␊ => 0 sink Y tuples 1␊sink X tuples 2␊; x.csv 1␊2␊; y.csv 3␊; counts 0:1 1:2
# a sink before another one that is ready earlier
@source () as Y = FileSink(B) {param file: "y.csv";} () as X = FileSink(T) {param file: "x.csv";} stream<T> B = Filter(T) {param filter: price > 10l;} | t.csv: 5␊11␊ => 0 sink Y tuples 1␊sink X tuples 2␊; x.csv 5␊11␊; y.csv 11␊; counts 1:1 2:2
# one with no tuples beside one with some
@source stream<int64 price> B = Filter(T) {param filter: false;} () as Y = FileSink(B) {param file: "y.csv";} () as X = FileSink(T) {param file: "x.csv";} | t.csv: 1␊2␊3␊ => 0 sink Y tuples 0␊sink X tuples 3␊; x.csv 1␊2␊3␊; y.csv ∅; counts 2:0 3:3
# a sink of two streams
@two () as Out = FileSink(S, T) {param file: "o.csv";} | s.csv: 1␊ | t.csv: 2␊3␊ => 0 sink Out tuples 3␊; o.csv 1␊2␊3␊; counts 2:3; record 2 0 0 0 1 1 1 1
# those of composites
composite Read(output T) {graph stream<int64 n> T = FileSource() {param file: "t.csv";}} composite Write(input I) {param expression<rstring> $to : "o.csv"; graph () as Out = FileSink(I) {param file: $to;}} composite Main {graph stream<int64 n> A = Read(); () as X = Write(A) {param to: "x.csv";} () as Y = Write(A);} | t.csv: 1␊2␊ => 0 sink X.Out tuples 2␊sink Y.Out tuples 2␊; o.csv 1␊2␊; x.csv 1␊2␊; counts 1:2 2:2
# whole programs
@sums | trades.csv: 1,IBM,100,20␍␊2,"A,B",50,5␍␊3,IBM,200,40␍␊4,MSFT,300,100␍␊5,"A,B",0,500␍␊6,"A,B",7,10␍␊7,IBM,10,10␍␊ => 0 sink LoOut tuples 3␊sink HiOut tuples 2␊sink BigOut tuples 1␊; lo.csv IBM,2000,1␊"A,B",70,1␊IBM,8100,2␊; hi.csv IBM,10000,2␊MSFT,30000,1␊; big.csv 4,MSFT,300,100␊; counts 6:3 7:2 8:1
@sales | sales.csv: 1,bakery,1000,2␊2,books,5000,1␊3,bakery,1000,3␊4,bakery,0,5␊5,bakery,500,2␊6,bakery,100,0␊7,bakery,100,20␊8,books,-5,30␊9,books,999,1␊ => 0 sink QuietOut tuples 4␊sink BusyOut tuples 2␊sink BulkOut tuples 1␊; quiet.csv 1,bakery,2000,1␊2,books,5000,1␊3,bakery,5000,2␊9,books,5999,2␊; busy.csv 5,bakery,6000,3␊7,bakery,6000,3␊; bulk.csv 7,bakery,100,20␊; counts 6:4 7:2 8:1

# Without sinks nothing is told.
composite A { } => 0
@source | t.csv: 1␊ => 0
@source () as C = Custom(T); | t.csv: 1␊ => 0

# The line of a fault stands behind the counts.
# of an operator
@filter 100l / price > 1l | t.csv: 20␊0␊5␊ => 3 sink Out tuples 1␊stopped B DivZero␊; o.csv 20␊; counts 2:1
# of a source
@first | t.csv: 20␊x␊30␊ => 3 sink Out tuples 1␊stopped T BadRow line 2␊; o.csv 20␊; counts 2:1
@first | t.csv: 20␊30␊ | fail read 2 t.csv => 3 sink Out tuples 2␊stopped T ReadFailed line 3␊; o.csv 20␊30␊; counts 2:2
# before any tuple
@first | t.csv: x␊ => 3 sink Out tuples 0␊stopped T BadRow line 1␊; o.csv ∅; counts 2:0
# a sink that goes on
@division | downloads.csv: index.html,5120,4␊intro.mp4,48500000,3100␊logo.png,18432,9␊empty.txt,0,0␊tour.mp4,91250000,5840␊style.css,2210,1␊ => 3 sink LargeOut tuples 2␊sink RatesOut tuples 3␊stopped Speed.Rates DivZero␊; large.csv intro.mp4,48500000,3100␊tour.mp4,91250000,5840␊; rates.csv index.html,1280␊intro.mp4,15645␊logo.png,2048␊; counts 3:2 4:3
# two sources
@pair | a.csv: 1␊2␊x␊ | b.csv: y␊ => 3 sink X tuples 2␊sink Y tuples 0␊stopped A BadRow line 3␊; x.csv 1␊2␊; y.csv ∅; counts 2:2 3:0
# an operator with two streams
@two () as Out = FileSink(S, T) {param file: "o.csv";} | s.csv: 1␊ | t.csv: 2␊x␊ => 3 sink Out tuples 2␊stopped T BadRow line 2␊; o.csv 1␊2␊; counts 2:2; record 2 0 0 0 1 1
# without sinks
@source stream<int64 price> B = Filter(T) {param filter: 100l / price > 1l;} | t.csv: 0␊ => 3 stopped B DivZero␊

# Nothing is counted where the run isn't carried out.
@wrong => 2 refused Y2 at 266␊
∅ => 2 refused E1 at 0␊
@none => 4 cannot open p.spl␊
@first => 4 cannot open t.csv␊
@first | t.csv: 20␊ | fail call 3 => 4 cannot open o.csv␊
@first | t.csv: 20␊ | fail read 1 p.spl => 5 cannot read p.spl␊
@first | t.csv: 20␊30␊ | fail write 2 o.csv => 6 cannot write o.csv␊; o.csv 20␊
@first | t.csv: 20␊x␊ | fail write 1 o.csv => 6 cannot write o.csv␊; o.csv ∅

# Counts that can't be told.
@first | t.csv: 5␊10␊11␊ | fail line 1 => 6; o.csv 11␊
@first | t.csv: 20␊x␊ | fail line 1 => 6; o.csv 20␊
@pair | a.csv: 1␊2␊ | b.csv: 3␊ | fail line 1 => 6; x.csv 1␊2␊; y.csv 3␊
# none to tell
@source | t.csv: 1␊ | fail line 1 => 0
"#;
