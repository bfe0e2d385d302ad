//! Places in trees.

pub(crate) const ROWS: &str = r#"
# What is placed stands at its first token
type T = int8; => type 5:T = 9:9:int8
type T = int8 a, list<U> b; => type 5:T = 9:(9:int8 14:a, 17:list<22:U> 25:b)
type T = map<int8, tuple<A b>>; => type 5:T = 9:9:map<13:int8, 19:tuple<25:A 27:b>>
int8 f(T a) {return a;} => 0:int8 5:f(7:T 9:a) {13:return 20:a;}
void f() {mutable int8 x = 1; T y; x.y[0] += 1; g(x); {break;}} => void 5:f() {10:mutable 18:int8 23:x = 27:1; 30:30:T 32:y; 35:35:(35:x.37:y[39:0]) += 45:1; 48:48:g(50:x); 54:{55:break;}}
void f() {if (a) return; else if (b) x = 1; else while (c) continue;} => void 5:f() {10:if (14:a) [17:return;] else if (34:b) [37:37:x = 41:1;] else [49:while (56:c) [59:continue;]]}
void f() {for (int8 i in xs) submit({a = i}, P);} => void 5:f() {10:for (15:int8 20:i in 25:xs) [29:submit(36:{37:a = 41:i}, 45:P);]}
public composite A(input stream<T> B; output C) {param expression<int8> $x : 1; type U = int8 a; config c: d;} => composite 17:A(output 45:C; input stream<32:32:T> 35:B) param [<66:int8> $72:x: 77:1] type [85:U = 89:(89:int8 94:a)] config [104:c: 107:d]
composite A {graph stream<T> X as Y = F(B, C as D; E); (stream<T a> P; stream<U> Q) = G(); () as S = H();} => composite 10:A graph [19:(stream<26:26:T> 29:X) as 34:Y = 38:F(40:B, 43:C as 48:D; 51:E); 55:(stream<63:(63:T 65:a)> 68:P; stream<78:78:U> 81:Q) = 86:G(); 91:() as 97:S = 101:H()]
composite A {graph () as S = F(X) {logic state: {int8 n = 1; mutable T m;} onTuple X: {n = 2;} onPunct X: {}}} => composite 10:A graph [19:() as 25:S = 29:F(31:X) 35:logic [state [49:int8 54:n = 58:1; mutable 69:T 71:m] 75:onTuple 83:X {87:87:n = 91:2;} 95:onPunct 103:X {}]]
composite A {graph () as S = F() {window X: tumbling, count(1, 2); param p: -a, b; output X: a = 1, b = c; config c: d;}} => composite 10:A graph [19:() as 25:S = 29:F() 34:window [41:X: 44:tumbling, 54:count(60:1, 63:2)] param [73:p: 76:(76:- 77:a), 80:b] 83:output [90:X: 93:a = 97:1, 100:b = 104:c] config [114:c: 117:d]]
// a␊namespace a.b;␊/* b */ type T =␊␉boolean;␍␊list<rstring> f() {} => type 33:T = 38:38:boolean; 48:list<53:rstring> 62:f() {}
"#;
