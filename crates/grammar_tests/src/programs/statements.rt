//! Statements and the branches among them.

pub(crate) const ROWS: &str = r#"
# Two names, or the word of a type, declare a variable
void f() {int8 x; T y; list<T> z; float64 w;} => void f() {int8 x; T y; list<T> z; left out float64 w;}
void f() {int8 x = 1; mutable T y = a + b; mutable T z;} => void f() {int8 x = 1; mutable T y = (a + b); mutable T z;}
void f() {mutable map<rstring, T> m = {};} => void f() {mutable map<rstring, T> m = {};}
# Two names in a row begin a declaration, and one name something else
void f() {a b; a b = c; a = b; a(b); a.b = c;} => void f() {a b; a b = c; a = b; a(b); (a.b) = c;}
void f() {a[0] x;} => unexpected 15
void f() {a.b x;} => unexpected 14
void f() {a b c;} => unexpected 14
void f() {a b(1);} => unexpected 13
void f() {a b = ;} => unexpected 16
void f() {a b, c;} => unexpected 13
void f() {a b += 1;} => unexpected 14
void f() {a b} => unexpected 13
void f() {a b = 1} => unexpected 17
void f() {int8;} => unexpected 14
void f() {int8 = 1;} => unexpected 15
void f() {int8(x);} => unexpected 14
void f() {boolean true = 1;} => unexpected 18
void f() {float64;} => unexpected 17
void f() {float64 float32;} => unexpected 18
void f() {list<int8>;} => unexpected 20
void f() {list(a);} => unexpected 14
void f() {mutable ;} => unexpected 18
void f() {mutable x;} => unexpected 19
void f() {mutable x = 1;} => unexpected 20
void f() {mutable mutable int8 x;} => unexpected 18
void f() {void x;} => unexpected 10
void f() {stream<int8> x;} => unexpected 10
void f() {type T = int8;} => unexpected 10
void f() {composite C {}} => unexpected 10

# An assignment changes a place, and a call stands alone
void f() {x = 1; x += 2; x -= 3; x *= 4; x /= 5; x %= 6;} => void f() {x = 1; x += 2; x -= 3; x *= 4; x /= 5; x %= 6;}
void f() {x.y = 1; x[0] = 2; x[a + 1].y[b].z += 3;} => void f() {(x.y) = 1; (x[0]) = 2; (x[(a + 1)].y[b].z) += 3;}
void f() {x = $p; x = a ? b : c; x = -y; x = (int8) y; x = 'a'; x = 2ul;} => void f() {x = $p; x = (a ? b : c); x = (- y); x = ((int8) y); x = 'a'; x = 2ul;}
void f() {g(); g(a); g(a, b + 1, h(c));} => void f() {g(); g(a); g(a, (b + 1), h(c));}
void f() {;} => unexpected 10
void f() {x;} => unexpected 11
void f() {x = ;} => unexpected 14
void f() {x = 1} => unexpected 15
void f() {x = 1 y = 2;} => unexpected 16
void f() {x == 1;} => unexpected 12
void f() {x.1 = 2;} => unexpected 12
void f() {x[] = 1;} => unexpected 12
void f() {x[1; } => unexpected 13
void f() {x = y = 1;} => unexpected 16
void f() {1 = x;} => unexpected 10
void f() {(x) = 1;} => unexpected 10
void f() {-x;} => unexpected 10
void f() {$x = 1;} => unexpected 10
void f() {'a' = x;} => unexpected 10
void f() {g(1).y = 2;} => unexpected 14
void f() {g(1) + 2;} => unexpected 15
void f() {g(1) = 2;} => unexpected 15
void f() {g(1)} => unexpected 14
void f() {g(1,);} => unexpected 14
void f() {g(1 2);} => unexpected 14
void f() {g(} => unexpected 12
void f() {g.h(1);} => unexpected 13
void f() {x, y = 1;} => unexpected 11
void f() {true = x;} => unexpected 10
void f() {x : 1;} => unexpected 12

# A loop has one statement
void f() {while (a) x = 1; while (a && b) {continue;}} => void f() {while (a) [x = 1;] while ((a && b)) [{continue;}]}
void f() {for (int8 i in xs) g(i); for (T t in m[k]) {} for (tuple<int8 a> t in [1, 2]) break;} => void f() {for (int8 i in xs) [g(i);] for (T t in (m[k])) [{}] for (tuple<int8 a> t in [1, 2]) [break;]}
void f() {for (T t in a in b) g(t);} => void f() {for (T t in (a in b)) [g(t);]}
void f() {while (a) for (T t in b) while (c) {x = 1;} x = 2;} => void f() {while (a) [for (T t in b) [while (c) [{x = 1;}]]] x = 2;}
void f() {while a) x = 1;} => unexpected 16
void f() {while () x = 1;} => unexpected 17
void f() {while (a x = 1;} => unexpected 19
void f() {while (a);} => unexpected 19
void f() {while (a)} => unexpected 19
void f() {while (a = 1) x = 1;} => unexpected 19
void f() {while (int8 x) {}} => unexpected 17
void f() {for int8 i in xs) {}} => unexpected 14
void f() {for (i in xs) g(i);} => unexpected 17
void f() {for (int8 in xs) g(i);} => unexpected 20
void f() {for (int8 i = 0; i < 3; i += 1) {}} => unexpected 22
void f() {for (int8 i in ) g(i);} => unexpected 25
void f() {for (int8 i in xs; a) {}} => unexpected 27
void f() {for (mutable int8 i in xs) {}} => unexpected 15
void f() {for (int8 i in xs);} => unexpected 28
void f() {for (int8 i, int8 j in xs) {}} => unexpected 21
void f() {for (int8 i: xs) {}} => unexpected 21
void f() {for (void i in xs) {}} => unexpected 15

# A statement that begins with its word
void f() {break; continue; return; return 1; return (a);} => void f() {break; continue; return; return 1; return <a>;}
void f() {submit({a = 1}, P); submit(t, Q); submit(Sys.WindowMarker, P);} => void f() {submit({a = 1}, P); submit(t, Q); submit((Sys.WindowMarker), P);}
void f() {break} => unexpected 15
void f() {break 1;} => unexpected 16
void f() {continue} => unexpected 18
void f() {continue x;} => unexpected 19
void f() {return} => unexpected 16
void f() {return 1} => unexpected 18
void f() {return 1 2;} => unexpected 19
void f() {return else;} => unexpected 17
void f() {return 1, 2;} => unexpected 18
void f() {return return;} => unexpected 17
void f() {submit;} => unexpected 16
void f() {submit a;} => unexpected 17
void f() {submit();} => unexpected 17
void f() {submit(a);} => unexpected 18
void f() {submit(a, 1);} => unexpected 20
void f() {submit(a, int8);} => unexpected 20
void f() {submit(a, P, Q);} => unexpected 21
void f() {submit(a, P.q);} => unexpected 21
void f() {submit(a, P)} => unexpected 22
void f() {submit(a; P);} => unexpected 18

# A block ends at its brace
void f() {{} {{}} {break;}} => void f() {{} {{}} {break;}}
void f() {x = 1;  => unexpected 17
void f() {{} => unexpected 12
void f() {x = 1;} } => unexpected 18
void f() {) => unexpected 10
void f() {{]}} => unexpected 11
void f() {{};} => unexpected 12

# An `if` has one statement for each branch
void f() {if (a) return;} => void f() {if (a) [return;]}
void f() {if (a) {x = 1;} else {x = 2;}} => void f() {if (a) [{x = 1;}] else [{x = 2;}]}
void f() {if (a) {} else {}} => void f() {if (a) [{}] else [{}]}
void f() {if (a) int8 x = 1; else T y;} => void f() {if (a) [int8 x = 1;] else [T y;]}
void f() {if (a) x = 1; if (b) x = 2; else x = 3;} => void f() {if (a) [x = 1;] if (b) [x = 2;] else [x = 3;]}
void f() {if a) return;} => unexpected 13
void f() {if () return;} => unexpected 14
void f() {if (a return;} => unexpected 16
void f() {if (a);} => unexpected 16
void f() {if (a)} => unexpected 16
void f() {if (a) else return;} => unexpected 17
void f() {else return;} => unexpected 10
void f() {x = 1; else x = 2;} => unexpected 17
void f() {if (a = 1) return;} => unexpected 16
void f() {if (a) return; else;} => unexpected 29
void f() {if (a) return; else} => unexpected 29
void f() {if (a) return; else return; else return;} => unexpected 38
void f() {if (a) x = 1 else x = 2;} => unexpected 23
void f() {if (a) {}; else {}} => unexpected 19
void f() {while (a) x = 1; else x = 2;} => unexpected 27
void f() {for (T t in a) x = 1; else x = 2;} => unexpected 32
void f() {if (a) x = 1; {} else x = 2;} => unexpected 27
void f() {if (a) x = 1; else else x = 2;} => unexpected 29
void f() {if (a) while (b) else x = 2;} => unexpected 27
void f() {if (a) return;} else return; => unexpected 26

# An `else` belongs to the nearest `if`
void f() {if (a) if (b) x = 1; else x = 2;} => void f() {if (a) [if (b) [x = 1;] else [x = 2;]]}
void f() {if (a) {if (b) x = 1;} else x = 2;} => void f() {if (a) [{if (b) [x = 1;]}] else [x = 2;]}
void f() {if (a) while (b) if (c) x = 1; else x = 2;} => void f() {if (a) [while (b) [if (c) [x = 1;] else [x = 2;]]]}
void f() {if (a) for (T t in b) if (c) x = 1; else x = 2;} => void f() {if (a) [for (T t in b) [if (c) [x = 1;] else [x = 2;]]]}
void f() {if (a) while (b) x = 1; else x = 2;} => void f() {if (a) [while (b) [x = 1;]] else [x = 2;]}
void f() {if (a) if (b) x = 1; else x = 2; else x = 3;} => void f() {if (a) [if (b) [x = 1;] else [x = 2;]] else [x = 3;]}
void f() {if (a) while (b) if (c) x = 1; else x = 2; else x = 3;} => void f() {if (a) [while (b) [if (c) [x = 1;] else [x = 2;]]] else [x = 3;]}
void f() {if (a) x = 1; else while (b) if (c) x = 2; else x = 3;} => void f() {if (a) [x = 1;] else [while (b) [if (c) [x = 2;] else [x = 3;]]]}
void f() {while (a) if (b) break; else continue;} => void f() {while (a) [if (b) [break;] else [continue;]]}
void f() {if (a) if (b) if (c) x = 1; else x = 2; else x = 3; else x = 4;} => void f() {if (a) [if (b) [if (c) [x = 1;] else [x = 2;]] else [x = 3;]] else [x = 4;]}
void f() {if (a) if (b) x = 1; else x = 2; else x = 3; else x = 4;} => unexpected 55
void f() {while (a) if (b) x = 1; else x = 2; else x = 3;} => unexpected 46
void f() {if (a) {if (b) x = 1; else x = 2; else x = 3;}} => unexpected 44

# The arms of an `if` stand in a row
void f() {if (a) x = 1; else if (b) x = 2;} => void f() {if (a) [x = 1;] else if (b) [x = 2;]}
void f() {if (a) x = 1; else if (b) x = 2; else x = 3;} => void f() {if (a) [x = 1;] else if (b) [x = 2;] else [x = 3;]}
void f() {if (a) {} else if (b) {} else if (c) {return;} else {}} => void f() {if (a) [{}] else if (b) [{}] else if (c) [{return;}] else [{}]}
void f() {if (a) x = 1; else {if (b) x = 2; else x = 3;}} => void f() {if (a) [x = 1;] else [{if (b) [x = 2;] else [x = 3;]}]}
void f() {if (a) if (b) x = 1; else if (c) x = 2; else x = 3;} => void f() {if (a) [if (b) [x = 1;] else if (c) [x = 2;] else [x = 3;]]}
void f() {if (a) if (b) x = 1; else if (c) x = 2; else x = 3; else x = 4;} => void f() {if (a) [if (b) [x = 1;] else if (c) [x = 2;] else [x = 3;]] else [x = 4;]}
void f() {if (a) x = 1; else if (b) if (c) x = 2; else x = 3;} => void f() {if (a) [x = 1;] else if (b) [if (c) [x = 2;] else [x = 3;]]}
void f() {if (a) x = 1; else if (b) if (c) x = 2; else x = 3; else x = 4;} => void f() {if (a) [x = 1;] else if (b) [if (c) [x = 2;] else [x = 3;]] else [x = 4;]}
void f() {if (a) x = 1; else if (b) while (c) if (d) x = 2; else x = 3; else if (e) x = 4;} => void f() {if (a) [x = 1;] else if (b) [while (c) [if (d) [x = 2;] else [x = 3;]]] else if (e) [x = 4;]}
void f() {if (a) return; else if b) return;} => unexpected 33
void f() {if (a) return; else if () return;} => unexpected 34
void f() {if (a) return; else if (b)} => unexpected 36
void f() {if (a) x = 1; else if (b) x = 2; else x = 3; else x = 4;} => unexpected 55
void f() {if (a) x = 1; else x = 2; else if (b) x = 3;} => unexpected 36
void f() {if (a) x = 1; else if (b) x = 2 else x = 3;} => unexpected 42
"#;
