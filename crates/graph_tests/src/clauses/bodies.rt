//! Functions and handlers: their statements, calls and endings.

pub(crate) const ROWS: &str = r#"
# The body of a function is typed.
function: return p; => ok 0 operators 0 streams
function: mutable int32 x = 1; for (int32 i in l) {if (i > p) continue; else if (i == 3) break; x += i;} while (x < 10) {x *= 2; {int32 y = x; x = y + 1;}} return x; => ok 0 operators 0 streams
function: mutable list<int32> k = l; k[0] = 1; appendM(k, p); mutable map<rstring, tuple<int32 x>> m = {}; m['a'] = {x = 1}; m['a'].x += k[1]; removeM(m, 'b'); clearM(k); return size(m); => ok 0 operators 0 streams
function: boolean p = true; if (p) return 1; else return 2; => ok 0 operators 0 streams
function: map<rstring, int32> m = {'a' : p}; for (rstring k in m) {if (k in m && has(m, k)) return m[k];} return 0; => ok 0 operators 0 streams
function: break; return p; => Y4 at 33
function: if (p > 0) {continue;} return p; => Y4 at 45
function: while (p > 0) {break;} break; return p; => Y4 at 56
function: if (p > 0) return; return p; => Y4 at 44
function: return p > 0; => Y2 at 40
function: submit({n = 1}, C); return p; => Y4 at 33
function: if (currentPunct() == Sys.WindowMarker) return 1; return p; => Y4 at 37
function: return $n; => Y1 at 40 n
function: int32 x = 1; x = 2; return x; => Y3 at 46
function: list<int32> k = l; k[0] = 2; return p; => Y3 at 52
function: p = 2; return p; => Y3 at 33
function: for (int32 i in l) {i = 2;} return p; => Y3 at 53
function: appendM(l, 2); return p; => Y3 at 41
function: {mutable int32 x = 1; x = 2;} x = 3; return p; => Y1 at 63 x
function: if (p > 0) {int32 x = 1;} return x; => Y1 at 66 x
function: for (int32 i in l) {} return i; => Y1 at 62 i
function: x += 1; return p; => Y1 at 33 x
function: if (p) return 1; return 2; => Y2 at 37
function: for (int32 i in p) {} return 2; => Y2 at 49
function: for (int64 i in l) {} return 2; => Y2 at 49
function: int64 x = p; return 2; => Y2 at 43
function: mutable int64 x = 1l; x = p; return 2; => Y2 at 59
function: mutable int32 x = 1; x += 1l; return 2; => Y2 at 59

# A call fits its rule.
function: return length((rstring) p) + size(l) + abs(-p) + min(p, 1) * max(2, p) + length(substring('abc', 0, p)); => ok 0 operators 0 streams
function: return g(p); => Y1 at 40 g
function: return length('a', 'b'); => Y4 at 40
function: return length(l); => Y2 at 47
function: appendM([1], 2); return p; => Y4 at 33
function: mutable list<int32> k = l; return clearM(k); => Y2 at 67

# A function without a result returns none.
void:  => ok 0 operators 0 streams
void: if (p > 0) return; return; => ok 0 operators 0 streams
void: return 1; => Y4 at 32
void: for (int32 i in l) {return i;} => Y4 at 52

# Functions call one another.
# a later function
int32 f(int32 p) {return g(p, 'a') + 1;} int32 g(int32 p, rstring s) {return p;} composite Main {} => ok 0 operators 0 streams
# a statement with a result
int32 f() {return 1;} void g() {f(); h(f());} void h(int32 a) {} composite Main {} => ok 0 operators 0 streams
# a type of the program
type T = int32 a, rstring s; T f(T t) {return {s = t.s, a = t.a + 1};} composite Main {} => ok 0 operators 0 streams
# too few arguments
int32 f(int32 p, int32 q) {return p;} int32 g() {return f(1);} composite Main {} => Y4 at 56
# too many arguments
void f() {} void g() {f(1);} composite Main {} => Y4 at 22
# an argument of another type
void f(int32 p, int64 q) {} void g() {f(1, 2);} composite Main {} => Y2 at 43
# an empty list as an argument
void f(list<int64> p) {} void g() {f([]); f([1l, 2]);} composite Main {} => Y2 at 49
# a result of another type
int64 f() {return 1l;} int32 g() {return f();} composite Main {} => Y2 at 41
# a call without a result as a value
void f() {} int32 g() {return f();} composite Main {} => Y2 at 30
# a later function with a type that is left out
void f() {g(1);} void g(float32 a) {} composite Main {} => Y5 at 24 float32
# a later function with an unknown result
int32 f() {return g();} foo g() {return 1;} composite Main {} => Y1 at 24 foo
# in a filter
boolean f(int32 p) {return p > 1;} composite Main {graph stream<int32 a> S = FileSource() {param file: 's';} stream<S> F = Filter(S) {param filter: f(a);}} => ok 2 operators 2 streams
# an argument in a filter
boolean f(int32 p) {return p > 1;} composite Main {graph stream<int64 a> S = FileSource() {param file: 's';} stream<S> F = Filter(S) {param filter: f(a);}} => Y2 at 150
# the result in a filter
int32 f(int32 p) {return p;} composite Main {graph stream<int32 a> S = FileSource() {param file: 's';} stream<S> F = Filter(S) {param filter: f(a);}} => Y2 at 142
# a parameter of its composite
int32 f() {return $n;} composite Main {param expression<int32> $n: 1;} => Y1 at 18 n
# a composite as a function
void f() {Main();} composite Main {} => Y1 at 10 Main

# A function with a result ends with one.
int32 f() {{{return 1;}}} composite Main {} => ok 0 operators 0 streams
int32 f(boolean c) {if (c) return 1; else {return 2;}} composite Main {} => ok 0 operators 0 streams
int32 f(int32 p) {if (p == 1) {return 1;} else if (p == 2) return 2; else {if (p == 3) return 3; else return 4;}} composite Main {} => ok 0 operators 0 streams
int32 f(boolean c) {if (c) {} return 1;} composite Main {} => ok 0 operators 0 streams
int32 f() {} composite Main {} => Y6 at 6 f
int32 f(boolean c) {if (c) return 1;} composite Main {} => Y6 at 6 f
int32 f(boolean c) {if (c) {return 1;} else {int32 x = 1;}} composite Main {} => Y6 at 6 f
int32 f(int32 p) {if (p == 1) return 1; else if (p == 2) return 2;} composite Main {} => Y6 at 6 f
int32 f() {while (true) {return 1;}} composite Main {} => Y6 at 6 f
int32 f() {for (int32 i in [1]) return i;} composite Main {} => Y6 at 6 f
int32 f() {return 1; int32 x = 1;} composite Main {} => Y6 at 6 f
int32 f() {return 1; {}} composite Main {} => Y6 at 6 f

# A handler of tuples is typed.
tuple: v += a + S.a + k; submit({n = v}, C); submit(Sys.WindowMarker, C); if (c) return; submit({n = length(s)}, C); => ok 2 operators 2 streams
tuple: return v; => Y4 at 197
tuple: break; => Y4 at 197
tuple: if (c) continue; => Y4 at 204
tuple: submit({n = 1}, D); => Y1 at 213 D
tuple: submit(S, S); => Y1 at 207 S
tuple: submit(Sys.FinalMarker, C); => Y1 at 204 Sys
tuple: submit(1, C); => Y2 at 204
tuple: submit(S, C); => Y2 at 204
tuple: submit({m = 1}, C); => Y2 at 204
tuple: submit({n = b}, C); => Y2 at 209
tuple: if (currentPunct() == Sys.WindowMarker) {} => Y4 at 201
tuple: boolean x = Sys.WindowMarker == Sys.FinalMarker; => Y1 at 209 Sys
tuple: k = 2; => Y3 at 197
tuple: a = 2; => Y3 at 197
tuple: S.a = 2; => Y3 at 197
tuple: boolean v = true; submit({n = v}, C); => Y2 at 227
tuple: rstring a = 'x'; v = a; => Y2 at 218
tuple: v = w; => Y1 at 201 w
tuple: foo x; => Y1 at 197 foo

# A handler of markers sees no tuple.
marker: if (currentPunct() == Sys.WindowMarker) {v = 0; submit(Sys.WindowMarker, C);} else if (v > 1 && (currentPunct()) != (Sys.FinalMarker)) submit({n = v + k}, C); => ok 2 operators 2 streams
marker: v = a; => Y1 at 201 a
marker: v = S.a; => Y1 at 201 S
marker: submit(S, C); => Y1 at 204 S
marker: submit(Sys.FinalMarker, C); => Y1 at 204 Sys
marker: boolean x = currentPunct(); => Y4 at 209
marker: currentPunct(); => Y4 at 197
marker: if (Sys.WindowMarker == currentPunct()) {} => Y1 at 201 Sys
marker: if (currentPunct() == Sys.Marker) {} => Y4 at 201
marker: if (currentPunct() == Sys.FinalMarker && Sys.FinalMarker == Sys.FinalMarker) {} => Y1 at 238 Sys
"#;
