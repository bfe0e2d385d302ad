//! Invocations and their clauses.

pub(crate) const ROWS: &str = r#"
# An invocation has streams or an alias
composite A {graph stream<int8> X = F();} => composite A graph [(stream<int8> X) = F()]
composite A {graph stream<int32 a, T b> X = F();} => composite A graph [(stream<(int32 a, T b)> X) = F()]
composite A {graph stream<T a> X as Y = F();} => composite A graph [(stream<(T a)> X) as Y = F()]
composite A {graph (stream<int8> X) = F();} => composite A graph [(stream<int8> X) = F()]
composite A {graph (stream<T> X; stream<U u> Y) as Z = F();} => composite A graph [(stream<T> X; stream<(U u)> Y) as Z = F()]
composite A {graph (stream<T> X; stream<T> Y; stream<T> Z) = F();} => composite A graph [(stream<T> X; stream<T> Y; stream<T> Z) = F()]
composite A {graph () as S = F();} => composite A graph [() as S = F()]
composite A {graph stream<list<T>> X = F();} => composite A graph [(stream<list<T>> X) = F()]
composite A {graph stream<float64 p> T = F();} => composite A graph [(stream<(left out float64 p)> T) = F()]
composite A {graph X = F();} => unexpected 19
composite A {graph F();} => unexpected 19
composite A {graph () = F();} => unexpected 22
composite A {graph () as = F();} => unexpected 25
composite A {graph () S = F();} => unexpected 22
composite A {graph (X) = F();} => unexpected 20
composite A {graph (stream<T> X;) = F();} => unexpected 32
composite A {graph (stream<T> X, stream<T> Y) = F();} => unexpected 31
composite A {graph (stream<T> X stream<T> Y) = F();} => unexpected 32
composite A {graph (stream<T> X as Y) = F();} => unexpected 32
composite A {graph (stream<T> X = F();} => unexpected 32
composite A {graph (stream<T> X; Y) = F();} => unexpected 33
composite A {graph stream X = F();} => unexpected 26
composite A {graph stream<> X = F();} => unexpected 26
composite A {graph stream<T = F();} => unexpected 28
composite A {graph stream<T> = F();} => unexpected 29
composite A {graph stream<T, U u> X = F();} => unexpected 27
composite A {graph stream<int8 a,> X = F();} => unexpected 33
composite A {graph stream<T> X F();} => unexpected 31
composite A {graph stream<T> X;} => unexpected 30
composite A {graph stream<T> X as = F();} => unexpected 34
composite A {graph stream<T> X as Y as Z = F();} => unexpected 36
composite A {graph stream<T> X, Y = F();} => unexpected 30
composite A {graph stream<T> X == F();} => unexpected 31
composite A {graph stream<void> X = F();} => unexpected 26
composite A {graph stream<T> int8 = F();} => unexpected 29

# An input port has streams and perhaps an alias
composite A {graph () as S = F(X);} => composite A graph [() as S = F(X)]
composite A {graph () as S = F(X, Y);} => composite A graph [() as S = F(X, Y)]
composite A {graph () as S = F(X; Y);} => composite A graph [() as S = F(X; Y)]
composite A {graph () as S = F(X as Y);} => composite A graph [() as S = F(X as Y)]
composite A {graph () as S = F(U, V as P; W; X, Y, Z as Q);} => composite A graph [() as S = F(U, V as P; W; X, Y, Z as Q)]
composite A {graph () as S = F(;X);} => unexpected 31
composite A {graph () as S = F(X;);} => unexpected 33
composite A {graph () as S = F(X;;Y);} => unexpected 33
composite A {graph () as S = F(X,);} => unexpected 33
composite A {graph () as S = F(X Y);} => unexpected 33
composite A {graph () as S = F(1);} => unexpected 31
composite A {graph () as S = F(X.y);} => unexpected 32
composite A {graph () as S = F(X as );} => unexpected 36
composite A {graph () as S = F(X as Y, Z);} => unexpected 37
composite A {graph () as S = F(X as int8);} => unexpected 36
composite A {graph () as S = F(stream<T> X);} => unexpected 31
composite A {graph () as S = F(as X);} => unexpected 31
composite A {graph () as S = F(X]);} => unexpected 32
composite A {graph () as S = F(X => unexpected 32

# An invocation ends with a semicolon or its clauses
composite A {graph () as S = F(); () as T = G();} => composite A graph [() as S = F(); () as T = G()]
composite A {graph () as S = F() {} stream<T> X = H() {}} => composite A graph [() as S = F(); (stream<T> X) = H()]
composite A {graph () as S = F() {} () as T = G(S);} => composite A graph [() as S = F(); () as T = G(S)]
composite A {graph () as S = ();} => unexpected 29
composite A {graph () as S = int8();} => unexpected 29
composite A {graph () as S = F;} => unexpected 30
composite A {graph () as S = F.G();} => unexpected 30
composite A {graph () as S = F()} => unexpected 32
composite A {graph () as S = F() as Y;} => unexpected 33
composite A {graph () as S = F() G();} => unexpected 33
composite A {graph () as S = F();;} => unexpected 33
composite A {graph () as S = F() {};} => unexpected 35
composite A {graph () as S = F() {} F();} => unexpected 36
composite A {graph () as S = F() param p: 1;} => unexpected 33
composite A {graph => unexpected 18
composite A {graph () as S = F() => unexpected 32
composite A {graph () as S = F() { => unexpected 34
composite A {graph () as S = F() {} => unexpected 35

# Clauses stand in their order, each once
composite A {graph () as S = F(X) {}} => composite A graph [() as S = F(X)]
composite A {graph () as S = F(X) {logic window param output config}} => composite A graph [() as S = F(X) logic [] window [] output []]
composite A {graph () as S = F(X) {logic onTuple X: {} window X: t; param p: 1; output S: a = b; config c: d;}} => composite A graph [() as S = F(X) logic [onTuple X {}] window [X: t] param [p: 1] output [S: a = b] config [c: d]]
composite A {graph () as S = F(X) {logic output}} => composite A graph [() as S = F(X) logic [] output []]
composite A {graph () as S = F(X) {window config c: d;}} => composite A graph [() as S = F(X) window [] config [c: d]]
composite A {graph () as S = F(X) {param p: 1; config c: d;}} => composite A graph [() as S = F(X) param [p: 1] config [c: d]]
composite A {graph () as S = F(X) {window X: t; logic}} => unexpected 48
composite A {graph () as S = F(X) {param p: 1; window X: t;}} => unexpected 47
composite A {graph () as S = F(X) {output X: a = 1; param p: 1;}} => unexpected 52
composite A {graph () as S = F(X) {config c: 1; output X: a = 1;}} => unexpected 48
composite A {graph () as S = F(X) {config c: 1; logic}} => unexpected 48
composite A {graph () as S = F(X) {param logic}} => unexpected 41
composite A {graph () as S = F(X) {output window}} => unexpected 42
composite A {graph () as S = F(X) {config param p: 1;}} => unexpected 42
composite A {graph () as S = F(X) {logic logic}} => unexpected 41
composite A {graph () as S = F(X) {window window}} => unexpected 42
composite A {graph () as S = F(X) {param param}} => unexpected 41
composite A {graph () as S = F(X) {output output}} => unexpected 42
composite A {graph () as S = F(X) {config config}} => unexpected 42
composite A {graph () as S = F(X) {graph}} => unexpected 35
composite A {graph () as S = F(X) {type T = int8;}} => unexpected 35
composite A {graph () as S = F(X) {p: 1;}} => unexpected 35
composite A {graph () as S = F(X) {;}} => unexpected 35
composite A {graph () as S = F(X) {param p: 1; 1}} => unexpected 47
composite A {graph () as S = F(X) {input X}} => unexpected 35

# Logic has a state and then handlers
composite A {graph () as S = F(X) {logic state: int8 a;}} => composite A graph [() as S = F(X) logic [state [int8 a]]]
composite A {graph () as S = F(X) {logic state: mutable T b = 1;}} => composite A graph [() as S = F(X) logic [state [mutable T b = 1]]]
composite A {graph () as S = F(X) {logic state: {}}} => composite A graph [() as S = F(X) logic []]
composite A {graph () as S = F(X) {logic state: {int8 a; mutable T b = [1];}}} => composite A graph [() as S = F(X) logic [state [int8 a; mutable T b = [1]]]]
composite A {graph () as S = F(X) {logic onTuple X: {submit(X, S);} onPunct X: {} onTuple Y: {}}} => composite A graph [() as S = F(X) logic [onTuple X {submit(X, S);} onPunct X {} onTuple Y {}]]
composite A {graph () as S = F(X) {logic state: int8 a; onTuple X: {a = 1;}}} => composite A graph [() as S = F(X) logic [state [int8 a] onTuple X {a = 1;}]]
composite A {graph () as S = F(X) {logic onPunct X: {if (a) x = 1; else {}} window}} => composite A graph [() as S = F(X) logic [onPunct X {if (a) [x = 1;] else [{}]}] window []]
composite A {graph () as S = F(X) {logic state int8 a;}} => unexpected 47
composite A {graph () as S = F(X) {logic state: ;}} => unexpected 48
composite A {graph () as S = F(X) {logic state}} => unexpected 46
composite A {graph () as S = F(X) {logic state: int8 a; int8 b;}} => unexpected 56
composite A {graph () as S = F(X) {logic state: {int8 a; ;}}} => unexpected 57
composite A {graph () as S = F(X) {logic state: {x = 1;}}} => unexpected 51
composite A {graph () as S = F(X) {logic state: {x(1);}}} => unexpected 50
composite A {graph () as S = F(X) {logic state: int8 a}} => unexpected 54
composite A {graph () as S = F(X) {logic int8 a;}} => unexpected 41
composite A {graph () as S = F(X) {logic onTuple : {}}} => unexpected 49
composite A {graph () as S = F(X) {logic onTuple X {}}} => unexpected 51
composite A {graph () as S = F(X) {logic onTuple X: return;}} => unexpected 52
composite A {graph () as S = F(X) {logic onTuple X: ;}} => unexpected 52
composite A {graph () as S = F(X) {logic onTuple X: {} state: int8 a;}} => unexpected 55
composite A {graph () as S = F(X) {logic onTuple X, Y: {}}} => unexpected 50
composite A {graph () as S = F(X) {logic onTuple X: {};}} => unexpected 54
composite A {graph () as S = F(X) {logic onWindow X: {}}} => unexpected 41
composite A {graph () as S = F(X) {onTuple X: {}}} => unexpected 35
composite A {graph () as S = F(X) {state: int8 a;}} => unexpected 35
composite A {graph () as S = F(X) {logic onPunct int8: {}}} => unexpected 49
composite A {graph () as S = F(X) {logic: {}}} => unexpected 40
composite A {graph () as S = F(X) {logic onPunct X: { => unexpected 53

# A part of a window is a word, perhaps with arguments
composite A {graph () as S = F(X) {window X: tumbling, count(2);}} => composite A graph [() as S = F(X) window [X: tumbling, count(2)]]
composite A {graph () as S = F(X) {window X: sliding, count(1, 2), count(), count; Y: partitioned;}} => composite A graph [() as S = F(X) window [X: sliding, count(1, 2), count(), count; Y: partitioned]]
composite A {graph () as S = F(X) {window X: tumbling, delta(t, 10l);}} => composite A graph [() as S = F(X) window [X: tumbling, delta(t, 10l)]]
composite A {graph () as S = F(X) {window X: ;}} => unexpected 45
composite A {graph () as S = F(X) {window X tumbling;}} => unexpected 44
composite A {graph () as S = F(X) {window X: tumbling,;}} => unexpected 54
composite A {graph () as S = F(X) {window X: tumbling count(1);}} => unexpected 54
composite A {graph () as S = F(X) {window X: count(1,);}} => unexpected 53
composite A {graph () as S = F(X) {window X: count(1 2);}} => unexpected 53
composite A {graph () as S = F(X) {window X: count[1];}} => unexpected 50
composite A {graph () as S = F(X) {window X: 5;}} => unexpected 45
composite A {graph () as S = F(X) {window X: tumbling}} => unexpected 53
composite A {graph () as S = F(X) {window 5: tumbling;}} => unexpected 42
composite A {graph () as S = F(X) {window X, Y: tumbling;}} => unexpected 43
composite A {graph () as S = F(X) {window X: count(1)(2);}} => unexpected 53
composite A {graph () as S = F(X) {window X: count(;}} => unexpected 51
composite A {graph () as S = F(X) {window X: int8;}} => unexpected 45

# A parameter has one value or more
composite A {graph () as S = F(X) {param file: 'a.csv'; format: csv;}} => composite A graph [() as S = F(X) param [file: 'a.csv'; format: csv]]
composite A {graph () as S = F(X) {param partitionBy: a, b, c + 1;}} => composite A graph [() as S = F(X) param [partitionBy: a, b, (c + 1)]]
composite A {graph () as S = F(X) {param p: $q, {a = 1}, {1 : 2}, [], -1;}} => composite A graph [() as S = F(X) param [p: $q, {a = 1}, {1 : 2}, [], (- 1)]]
composite A {graph () as S = F(X) {config placement: p; q: r;}} => composite A graph [() as S = F(X) config [placement: p; q: r]]
composite A {graph () as S = F(X) {param p;}} => unexpected 42
composite A {graph () as S = F(X) {param p: ;}} => unexpected 44
composite A {graph () as S = F(X) {param p: 1,;}} => unexpected 46
composite A {graph () as S = F(X) {param p: 1 2;}} => unexpected 46
composite A {graph () as S = F(X) {param p = 1;}} => unexpected 43
composite A {graph () as S = F(X) {param p: 1}} => unexpected 45
composite A {graph () as S = F(X) {param p: q: 1;}} => unexpected 45
composite A {graph () as S = F(X) {param 'a': 1;}} => unexpected 41
composite A {graph () as S = F(X) {param p: a + ;}} => unexpected 48
composite A {graph () as S = F(X) {param expression<int8> $x;}} => unexpected 41
composite A {graph () as S = F(X) {param p: int8;}} => unexpected 44
composite A {graph () as S = F(X) {param int8: 1;}} => unexpected 41
composite A {graph () as S = F(X) {config c;}} => unexpected 43
composite A {graph () as S = F(X) {config c: ;}} => unexpected 45
composite A {graph () as S = F(X) {config c: 1}} => unexpected 46
composite A {graph () as S = F(X) {config 1: c;}} => unexpected 42
composite A {graph () as S = F(X) {config c: 1,;}} => unexpected 47

# An output assigns one attribute or more
composite A {graph () as S = F(X) {output X: a = 1;}} => composite A graph [() as S = F(X) output [X: a = 1]]
composite A {graph () as S = F(X) {output X: a = Any(a), b = {c = 1}; Y: d = e;}} => composite A graph [() as S = F(X) output [X: a = Any(a), b = {c = 1}; Y: d = e]]
composite A {graph () as S = F(X) {output X: ;}} => unexpected 45
composite A {graph () as S = F(X) {output X: 1;}} => unexpected 45
composite A {graph () as S = F(X) {output X: a;}} => unexpected 46
composite A {graph () as S = F(X) {output X: a == 1;}} => unexpected 47
composite A {graph () as S = F(X) {output X: a = 1,;}} => unexpected 51
composite A {graph () as S = F(X) {output X: a = ;}} => unexpected 49
composite A {graph () as S = F(X) {output X: a.b = 1;}} => unexpected 46
composite A {graph () as S = F(X) {output X: a += 1;}} => unexpected 47
composite A {graph () as S = F(X) {output X: a = 1 b = 2;}} => unexpected 51
composite A {graph () as S = F(X) {output : a = 1;}} => unexpected 42
composite A {graph () as S = F(X) {output X a = 1;}} => unexpected 44
composite A {graph () as S = F(X) {output X: a = 1}} => unexpected 50
composite A {graph () as S = F(X) {output X: a = 1; int8}} => unexpected 52
composite A {graph () as S = F(X) {output X: a = 1, 2;}} => unexpected 52
"#;
