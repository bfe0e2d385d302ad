//! What `run` does with sources, Filters, sinks, functions and composites.

pub(crate) const RUNS: &str = r#"
# A Filter stands between a source and a sink.
# rows on both sides of the limit
@first | t.csv: 5␊10␊11␊ => 0; o.csv 11␊; counts 2:1
# no rows
@first | t.csv: ∅ => 0; o.csv ∅; counts 2:0
# a last line without its end
@first | t.csv: 11␊12 => 0; o.csv 11␊12␊; counts 2:2
# zeros in front, and a minus
@first | t.csv: 0011␊-12␊-0␊000000000000000012␊ => 0; o.csv 11␊12␊; counts 2:2
# the largest numbers
@first | t.csv: 9223372036854775807␊-9223372036854775808␊ => 0; o.csv 9223372036854775807␊; counts 2:1

# Whole programs.
# no operator
composite A { } => 0
# two composites, of which one is Main
composite A {graph () as X = Foo();} composite Main {} => 0
# what says nothing
namespace demo.first; /* x */ public composite Main {graph stream<int64 price> T = FileSource() {param file: 't.csv'; format: csv; parsing: strict; config placement: 1;} () as Out = FileSink(T) {param format: csv; file: 'o.csv'; config placement: here;} config threads: 4;} // y | t.csv: 1␊ => 0; o.csv 1␊; counts 1:1
# names of types
type Row = int64 price; composite Main {type Cents = int64; graph stream<Row> T = FileSource() {param file: "t.csv";} stream<T> B = Filter(T); stream<Cents price> D = Filter(B); stream<tuple<int64 price>> F = Filter(D); () as Out = FileSink(F) {param file: "o.csv";}} | t.csv: 1␊ => 0; o.csv 1␊; counts 4:1
# a file that two sources read
composite Main {graph stream<int64 n> S = FileSource() {param file: "t.csv";} stream<int64 n> T = FileSource() {param file: "t.csv";} () as X = FileSink(S) {param file: "x.csv";} () as Y = FileSink(T) {param file: "y.csv";}} | t.csv: 1␊2␊ => 0; x.csv 1␊2␊; y.csv 1␊2␊; counts 2:2 3:2
# two sources and two sinks
@pair | a.csv: 1␊2␊ | b.csv: 3␊ => 0; x.csv 1␊2␊; y.csv 3␊; counts 2:2 3:1
# sinks before their sources
composite Main {graph () as Y = FileSink(B) {param file: "y.csv";} () as X = FileSink(A) {param file: "x.csv";} stream<int64 n> B = FileSource() {param file: "b.csv";} stream<int64 n> A = FileSource() {param file: "a.csv";}} | a.csv: 1␊2␊ | b.csv: 3␊ => 0; x.csv 1␊2␊; y.csv 3␊; counts 0:1 1:2

# Streams go to each reader in full.
# a source alone
@source | t.csv: 1␊ => 0
# a source and a sink
@source () as Out = FileSink(T) {param file: "o.csv";} | t.csv: 007␊-0␊-10␊ => 0; o.csv 7␊0␊-10␊; counts 1:3
# a Filter without a condition
@source stream<int64 price> B = Filter(T); () as Out = FileSink(B) {param file: "o.csv";} | t.csv: 3␊-1␊ => 0; o.csv 3␊-1␊; counts 2:2
# a stream that nobody reads
@source stream<int64 price> B = Filter(T) {param filter: price > 1l;} () as Out = FileSink(T) {param file: "o.csv";} | t.csv: 1␊2␊ => 0; o.csv 1␊2␊; counts 2:2
# two sinks of one stream
@source stream<int64 price> B = Filter(T) {param filter: price > 10l;} () as X = FileSink(B) {param file: "x.csv";} () as Y = FileSink(B) {param file: "y.csv";} | t.csv: 5␊10␊11␊12␊ => 0; x.csv 11␊12␊; y.csv 11␊12␊; counts 2:2 3:2
# two sinks behind one another's Filters
@source stream<int64 price> B = Filter(T) {param filter: price > 10l;} () as X = FileSink(B) {param file: "x.csv";} stream<int64 price> C = Filter(B) {param filter: price > 20l;} () as Y = FileSink(C) {param file: "y.csv";} | t.csv: 25␊5␊15␊ => 0; x.csv 25␊15␊; y.csv 25␊; counts 2:2 4:1
# a source that three Filters read
@source stream<int64 price> L = Filter(T) {param filter: price < 10l;} stream<int64 price> M = Filter(T) {param filter: price >= 10l && price < 20l;} stream<int64 price> H = Filter(T) {param filter: price >= 20l;} () as X = FileSink(L) {param file: "x.csv";} () as Y = FileSink(M) {param file: "y.csv";} () as Z = FileSink(H) {param file: "z.csv";} | t.csv: 25␊5␊10␊19␊20␊-3␊ => 0; x.csv 5␊-3␊; y.csv 10␊19␊; z.csv 25␊20␊; counts 4:2 5:2 6:2
# a sink before what it reads
@source () as Out = FileSink(C) {param file: "o.csv";} stream<int64 price> C = Filter(B) {param filter: price < 20l;} stream<int64 price> B = Filter(T) {param filter: price > 10l;} | t.csv: 5␊11␊25␊12␊ => 0; o.csv 11␊12␊; counts 1:2
# a sink with no rows beside one with some
@source stream<int64 price> B = Filter(T) {param filter: false;} () as Y = FileSink(B) {param file: "y.csv";} () as X = FileSink(T) {param file: "x.csv";} | t.csv: 1␊2␊3␊ => 0; x.csv 1␊2␊3␊; y.csv ∅; counts 2:0 3:3
# names of an operator and of a port
@source stream<int64 price> B as Check = Filter(T as In) {param filter: In.price > 10l;} () as Out = FileSink(B as Rows) {param file: "o.csv";} | t.csv: 5␊11␊ => 0; o.csv 11␊; counts 2:1
# a sink's file that is there already
@source () as Out = FileSink(T) {param file: "o.csv";} | t.csv: 1␊ | o.csv: older rows␊ | x.csv: of another␊ => 0; o.csv 1␊; x.csv of another␊; o.csv changed; counts 1:1

# A Filter has any condition.
# integers that wrap
@filter (int8) price < (int8) 0 | t.csv: 127␊128␊383␊384␊ => 0; o.csv 128␊384␊; counts 2:2
# a division toward zero
@filter price / 2l == -1l | t.csv: -3␊-2␊-1␊2␊ => 0; o.csv -3␊-2␊; counts 2:2
# a remainder with the sign of what is divided
@filter price % 3l == -1l | t.csv: -1␊2␊-4␊4␊ => 0; o.csv -1␊-4␊; counts 2:2
# a list
@filter price in [5l, 7l] | t.csv: 5␊6␊7␊ => 0; o.csv 5␊7␊; counts 2:2
# a map
@filter {1l : true, 2l : false, 1l : false}[price] || price == 2l | t.csv: 2␊1␊ => 0; o.csv 2␊; counts 2:1
# digits
@filter length((rstring) price) == 2 | t.csv: 5␊10␊-7␊100␊ => 0; o.csv 10␊-7␊; counts 2:2
# what isn't needed isn't evaluated
@filter price != 0l && 100l / price > 1l | t.csv: 20␊0␊5␊ => 0; o.csv 20␊5␊; counts 2:2

# So many Filters one behind the other, each of which drops its own number.
@chain 1 | t.csv: 100␊-1␊50␊0␊1␊101␊99␊200␊ => 0; o.csv 100␊-1␊50␊0␊101␊99␊200␊; counts 2:7
@chain 100 | t.csv: 100␊-1␊50␊0␊1␊101␊99␊200␊ => 0; o.csv -1␊0␊101␊200␊; counts 101:4
@chain 200 | t.csv: 100␊-1␊50␊0␊1␊101␊99␊200␊ => 0; o.csv -1␊0␊; counts 201:2
@chain 254 | t.csv: 100␊-1␊50␊0␊1␊101␊99␊200␊ => 0; o.csv -1␊0␊; counts 255:2
@chain 255 | t.csv: 100␊-1␊50␊0␊1␊101␊99␊200␊ => 2 refused E6 at 15818␊

# A condition calls functions.
# a call
boolean isLarge(int64 n) {return n > 10l;} composite Main {graph stream<int64 n> T = FileSource() {param file: "t.csv";} stream<int64 n> B = Filter(T) {param filter: isLarge(n);} () as Out = FileSink(B) {param file: "o.csv";}} | t.csv: 5␊11␊10␊12␊ => 0; o.csv 11␊12␊; counts 2:2
# a call of a later function within another
boolean isRound(int64 cents) {return rest(cents, 100l) == 0l;} int64 rest(int64 n, int64 by) {return n % by;} composite Main {graph stream<int64 n> T = FileSource() {param file: "t.csv";} stream<int64 n> B = Filter(T) {param filter: isRound(n) || rest(n, 7l) == 0l;} () as Out = FileSink(B) {param file: "o.csv";}} | t.csv: 100␊199␊14␊-300␊0␊ => 0; o.csv 100␊14␊-300␊0␊; counts 2:4
# a loop
int64 digits(int64 n) {mutable int64 count = 1l; mutable int64 rest = n / 10l; while (rest != 0l) {count += 1l; rest /= 10l;} return count;} composite Main {graph stream<int64 n> T = FileSource() {param file: "t.csv";} stream<int64 n> B = Filter(T) {param filter: digits(n) == 3l;} () as Out = FileSink(B) {param file: "o.csv";}} | t.csv: 99␊100␊-999␊1000␊0␊ => 0; o.csv 100␊-999␊; counts 2:2
# branches, a list and a local variable
boolean isListed(int64 n) {list<int64> l = [2l, 3l, 5l]; for (int64 m in l) {if (m == n) return true; else if (m > n) break;} return false;} composite Main {graph stream<int64 n> T = FileSource() {param file: "t.csv";} stream<int64 n> B = Filter(T) {param filter: isListed(n);} () as Out = FileSink(B) {param file: "o.csv";}} | t.csv: 1␊2␊3␊4␊5␊6␊ => 0; o.csv 2␊3␊5␊; counts 2:3
# a fault within a function
int64 share(int64 n) {return 100l / n;} composite Main {graph stream<int64 n> T = FileSource() {param file: "t.csv";} stream<int64 n> B = Filter(T) {param filter: share(n) > 1l;} () as Out = FileSink(B) {param file: "o.csv";}} | t.csv: 20␊0␊5␊ => 3 stopped B DivZero␊; o.csv 20␊; counts 2:1

# A composite stands for its operators.
# one that is invoked twice
composite Above(output F; input I) {param expression<int64> $least; graph stream<I> F = Filter(I) {param filter: n >= $least;}} composite Main {graph stream<int64 n> T = FileSource() {param file: "t.csv";} stream<int64 n> A = Above(T) {param least: 10l;} stream<int64 n> C = Above(T) {param least: 100l;} () as X = FileSink(A) {param file: "x.csv";} () as Y = FileSink(C) {param file: "y.csv";}} | t.csv: 9␊10␊99␊100␊ => 0; x.csv 10␊99␊100␊; y.csv 100␊; counts 3:3 4:1
# a fault in the second of two
composite Share(output F; input I) {param expression<int64> $by; graph stream<I> F = Filter(I) {param filter: n / $by > 1l;}} composite Main {graph stream<int64 n> T = FileSource() {param file: "t.csv";} stream<int64 n> A = Share(T) {param by: 2l;} stream<int64 n> C = Share(T) {param by: 1l - 1l;} () as X = FileSink(A) {param file: "x.csv";} () as Y = FileSink(C) {param file: "y.csv";}} | t.csv: 3␊10␊ => 3 stopped C.F DivZero␊; x.csv 10␊; y.csv ∅; counts 3:1 4:0
# names of an invocation and of an operator within
composite Share(output F; input I) {graph stream<I> F as Divide = Filter(I) {param filter: 100l / n > 1l;}} composite Main {graph stream<int64 n> T = FileSource() {param file: "t.csv";} stream<int64 n> A as First = Share(T); () as Out = FileSink(A) {param file: "o.csv";}} | t.csv: 20␊0␊ => 3 stopped First.Divide DivZero␊; o.csv 20␊; counts 2:1
# one within another
composite Inner(output F; input I) {param expression<int64> $by : 1l; graph stream<I> F = Filter(I) {param filter: 100l / (n - $by) != 0l;}} composite Outer(output G; input I) {param expression<int64> $at; graph stream<I> P = Inner(I); stream<I> G = Inner(P) {param by: $at + 1l;}} composite Main {graph stream<int64 n> T = FileSource() {param file: "t.csv";} stream<int64 n> A = Outer(T) {param at: 6l;} () as Out = FileSink(A) {param file: "o.csv";}} | t.csv: 2␊102␊8␊7␊1␊ => 3 stopped A.G.F DivZero␊; o.csv 2␊8␊; counts 3:2
# one with a source and a sink
composite Read(output T) {graph stream<int64 n> T = FileSource() {param file: "t.csv";}} composite Write(input I) {param expression<rstring> $to : "o.csv"; graph () as Out = FileSink(I) {param file: $to;}} composite Main {graph stream<int64 n> A = Read(); () as X = Write(A) {param to: "x.csv";} () as Y = Write(A);} | t.csv: 1␊2␊ => 0; o.csv 1␊2␊; x.csv 1␊2␊; counts 1:2 2:2
# two outputs and two inputs
composite Swap(output F, G; input I, J) {graph stream<J> F = Filter(J); stream<I> G = Filter(I);} composite Main {graph stream<int64 n> A = FileSource() {param file: "a.csv";} stream<int64 n> B = FileSource() {param file: "b.csv";} (stream<int64 n> C; stream<int64 n> D) as N = Swap(A; B); () as X = FileSink(C) {param file: "x.csv";} () as Y = FileSink(D) {param file: "y.csv";}} | a.csv: 1␊2␊ | b.csv: 3␊ => 0; x.csv 3␊; y.csv 1␊2␊; counts 4:1 5:2
# parameters of the main composite
composite Anything {param expression<int64> $least : 10l; expression<rstring> $from : "t.csv"; graph stream<int64 n> T = FileSource() {param file: $from;} stream<int64 n> B = Filter(T) {param filter: n > $least;} () as Out = FileSink(B) {param file: "o.csv";}} | t.csv: 10␊11␊ => 0; o.csv 11␊; counts 2:1
# one with the name of an operator
composite Filter(output F; input I) {graph () as Out = FileSink(I) {param file: "o.csv";} stream<int64 n> F = FileSource() {param file: "b.csv";}} composite Main {graph stream<int64 n> A = FileSource() {param file: "a.csv";} stream<int64 n> B = Filter(A); () as X = FileSink(B) {param file: "x.csv";}} | a.csv: 1␊ | b.csv: 2␊3␊ => 0; o.csv 1␊; x.csv 2␊3␊; counts 1:1 3:2
# one that nobody invokes
composite Sums(output A; input I) {graph stream<I> A = Aggregate(I) {window I: tumbling, count(2);}} composite Main {graph stream<int64 n> T = FileSource() {param file: "t.csv";} () as Out = FileSink(T) {param file: "o.csv";}} | t.csv: 1␊ => 0; o.csv 1␊; counts 1:1
"#;
