//! What `run` does with Functor, Split, Punctor and Custom.

pub(crate) const OPERATORS: &str = r#"
# A Functor makes a tuple of each.
@op int32 a → stream<int32 b> B = Functor(T) {output B: b = 100 / a;} | t.csv: 10␊20␊50␊0␊5␊ => 3 stopped B DivZero␊; o.csv 10␊5␊2␊; counts 2:3
@op int8 a, int8 b → stream<int8 s> B = Functor(T) {output B: s = a + b;} | t.csv: 127,1␊ => 0; o.csv -128␊; counts 2:1
# without a clause
@op int64 n → stream<int64 n> B = Functor(T); | t.csv: 3␊-1␊ => 0; o.csv 3␊-1␊; counts 2:2
# attributes in another order, of which one is left out
@op int64 a, rstring s, boolean c → stream<boolean c, rstring s, int64 n> B = Functor(T) {output B: n = a * 2l;} | t.csv: 4,x,true␊-1,"y,z",false␊ => 0; o.csv true,x,8␊false,"y,z",-2␊; counts 2:2
# a condition, without which there would be a fault
@op int64 a → stream<int64 b> B = Functor(T) {param filter: a != 0l; output B: b = 100l / a;} | t.csv: 10␊0␊5␊ => 0; o.csv 10␊20␊; counts 2:2
# texts, of which one is empty
@op rstring s → stream<rstring s, int32 n> B = Functor(T) {output B: s = "<" + s + ">", n = length(s);} | t.csv: ab␊""␊"a,b"␊ => 0; o.csv <ab>,2␊<>,0␊"<a,b>",3␊; counts 2:3
# casts that wrap
@op int32 a → stream<uint8 u, int8 i, rstring s> B = Functor(T) {output B: u = (uint8) a, i = (int8) a, s = (rstring) (a + 1);} | t.csv: 255␊-1␊128␊ => 0; o.csv 255,-1,256␊255,-1,0␊128,-128,129␊; counts 2:3
# assignments in the order of the text
@op int32 a → stream<int32 x, int32 y> B = Functor(T) {output B: y = [1][a + 5], x = 1 / a;} | t.csv: 0␊ => 3 stopped B Index␊; o.csv ∅; counts 2:0
# one that nobody reads
@source stream<int64 price> B = Functor(T) {param filter: 1l / price < 2l;} () as Out = FileSink(T) {param file: "o.csv";} | t.csv: 1␊0␊2␊ => 3 stopped B DivZero␊; o.csv 1␊0␊2␊; counts 2:3

# A Filter has several attributes.
@op rstring s, int64 n → stream<T> B = Filter(T) {param filter: s < "b" && n >= 0l;} | t.csv: a,1␊b,2␊"a,b",3␊a,-1␊ => 0; o.csv a,1␊"a,b",3␊; counts 2:2

# A Split gives each tuple to a port, or drops it.
@source (stream<int64 price> L; stream<int64 price> R) = Split(T) {param index: price;} () as X = FileSink(L) {param file: "x.csv";} () as Y = FileSink(R) {param file: "y.csv";} | t.csv: -1␊5␊0␊2␊-7␊1␊ => 0; x.csv 0␊2␊; y.csv 5␊1␊; counts 2:2 3:2
@op int64 n → (stream<T> A; stream<T> C; stream<T> B) as S = Split(T) {param index: (int8) n;} | t.csv: 5␊2␊128␊258␊-1␊1␊ => 0; o.csv 5␊2␊258␊; counts 2:3
@op uint64 n → stream<T> B = Split(T) {param index: n;} | t.csv: 18446744073709551615␊0␊ => 0; o.csv 18446744073709551615␊0␊; counts 2:2
# a fault goes to every port
@source (stream<int64 price> L; stream<int64 price> R) = Split(T) {param index: 10l / price;} () as X = FileSink(L) {param file: "x.csv";} () as Y = FileSink(R) {param file: "y.csv";} | t.csv: 5␊0␊10␊ => 3 stopped L DivZero␊; x.csv 5␊; y.csv ∅; counts 2:1 3:0

# Window markers: a Custom tells 0 where one comes, and -1 at the end.
@op int64 n → stream<T> P = Punctor(T) {param punctuation: n > 10l; position: before;} stream<T> B = Custom(P) {logic onTuple P: {submit(P, B);} onPunct P: {if (currentPunct() == Sys.WindowMarker) submit({n = 0l}, B); else submit({n = -1l}, B);}} | t.csv: 5␊11␊7␊12␊ => 0; o.csv 5␊0␊11␊7␊0␊12␊0␊-1␊; counts 3:8
@op int64 n → stream<T> P = Punctor(T) {param punctuation: n > 10l; position: after;} stream<T> B = Custom(P) {logic onTuple P: {submit(P, B);} onPunct P: {if (currentPunct() == Sys.WindowMarker) submit({n = 0l}, B); else submit({n = -1l}, B);}} | t.csv: 5␊11␊7␊12␊ => 0; o.csv 5␊11␊0␊7␊12␊0␊0␊-1␊; counts 3:8
# Filter, Functor and Split pass those of the source
@op int64 n → stream<T> F = Filter(T) {param filter: n > 5l;} stream<T> G = Functor(F) {output G: n = n + 1l;} (stream<T> L; stream<T> R) = Split(G) {param index: n;} stream<T> B = Custom(R) {logic onTuple R: {submit(R, B);} onPunct R: {if (currentPunct() == Sys.WindowMarker) submit({n = 0l}, B); else submit({n = -1l}, B);}} | t.csv: 5␊6␊7␊8␊ => 0; o.csv 7␊9␊0␊-1␊; counts 5:4
# a Custom passes none by itself, and gives those that it submits
@op int64 n → stream<T> C = Custom(T) {logic onTuple T: {submit(T, C); if (n > 5l) submit(Sys.WindowMarker, C);}} stream<int64 windows> B = Custom(C) {logic state: mutable int64 seen = 0l; onPunct C: {if (currentPunct() == Sys.WindowMarker) seen += 1l; else submit({windows = seen}, B);}} | t.csv: 5␊6␊7␊ => 0; o.csv 2␊; counts 3:1

# A Custom submits what its logic says.
@op int64 price → stream<int64 n> B = Custom(T) {logic onTuple T: {submit({n = price}, B); submit({n = price}, B); submit({n = price}, B);}} | t.csv: 1␊2␊ => 0; o.csv 1␊1␊1␊2␊2␊2␊; counts 2:6
# without logic
@source () as C = Custom(T); | t.csv: 1␊ => 0
# sums by a key
@op rstring k, int64 v → stream<rstring k, int64 s> B = Custom(T) {logic state: mutable map<rstring, int64> sum; onTuple T: {if (!has(sum, k)) sum[k] = 0l; sum[k] += v; submit({k = k, s = sum[k]}, B);}} | t.csv: a,1␊b,2␊a,3␊ => 0; o.csv a,1␊b,2␊a,4␊; counts 2:3
# keys in ascending order, at the end
@op int8 k → stream<int8 k, int32 n> B = Custom(T) {logic state: mutable map<int8, list<boolean>> seen; onTuple T: {if (!(k in seen)) seen[k] = []; appendM(seen[k], true);} onPunct T: {if (currentPunct() == Sys.FinalMarker) {for (int8 key in seen) submit({k = key, n = size(seen[key])}, B);}}} | t.csv: 7␊-3␊7␊0␊7␊ => 0; o.csv -3,1␊0,1␊7,3␊; counts 2:3
# two outputs, and a port of another name
@op int64 n → (stream<int64 n> A; stream<rstring s> B) as C = Custom(T as In) {logic onTuple In: {submit({n = In.n * 2l}, A); if (In.n % 2l == 0l) submit({s = (rstring) In.n}, B);}} () as X = FileSink(A) {param file: "x.csv";} | t.csv: 1␊2␊3␊ => 0; o.csv 2␊; x.csv 2␊4␊6␊; counts 2:3 3:1
# a fault drops what its event gave
@op int64 n → stream<T> B as C = Custom(T) {logic onTuple T: {submit(T, B); submit({n = 100l / n}, B);}} | t.csv: 20␊0␊5␊ => 3 stopped C DivZero␊; o.csv 20␊5␊; counts 2:2
# a fault at the end
@op int64 n → stream<T> B = Custom(T) {logic state: mutable map<int64, int64> m; onTuple T: {submit(T, B);} onPunct T: {if (currentPunct() == Sys.FinalMarker) submit({n = m[0l]}, B);}} | t.csv: 20␊5␊ => 3 stopped B NoKey␊; o.csv 20␊5␊; counts 2:2
# a source's fault is no end
@op int64 n → stream<T> B = Custom(T) {logic onTuple T: {submit(T, B);} onPunct T: {submit({n = 0l}, B);}} | t.csv: 20␊x␊ => 3 stopped T BadRow line 2␊; o.csv 20␊; counts 2:1
# in a composite, with a function and an alias
int64 twice(int64 n) {return n * 2l;} composite Twice(output D; input I) {graph stream<int64 n> D as Both = Custom(I) {logic onTuple I: {submit({n = twice(n)}, D); submit({n = 100l / n}, D);}}} composite Main {graph stream<int64 n> T = FileSource() {param file: "t.csv";} stream<int64 n> B = Twice(T); () as Out = FileSink(B) {param file: "o.csv";}} | t.csv: 5␊0␊ => 3 stopped B.Both DivZero␊; o.csv 10␊20␊; counts 2:2
"#;
