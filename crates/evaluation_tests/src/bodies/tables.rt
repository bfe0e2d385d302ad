//! Functions that bodies call, and what bodies leave or are refused for.

/// Functions that can be called.
pub(crate) const FUNCTIONS: &str = r#"
int32 inc(int32 n) { return n + 1; }
int32 zero() { return 0; }
int32 at(list<int32> xs, int32 i) { return xs[i]; }
int32 twice(int32 n) { return inc(inc(n)); }
boolean is_below(int32 a, int32 b) { return a < b; }
// The first element above another, or else -1.
int32 first_above(list<int32> xs, int32 least) { for (int32 x in xs) { if (x > least) { return x; } } return -1; }
// The first element that makes 50 with one of them, or else -1.
int32 first_of_pair(list<int32> xs) { for (int32 x in xs) { for (int32 y in xs) { if (x + y == 50) { return x; } } } return -1; }
int32 sum_to(int32 n) { mutable int32 sum = 0; mutable int32 i = 0; while (i < n) { i = i + 1; sum = sum + i; } return sum; }
int32 sum_of_sums(int32 n) { mutable int32 sum = 0; mutable int32 i = 0; while (i < n) { i = i + 1; sum = sum + sum_to(i); } return sum; }
// Its variable hides its parameter.
int32 next_doubled(int32 n) { mutable int32 n = n + 1; n = n * 2; return n; }
list<int32> with_last(list<int32> xs, int32 x) { mutable list<int32> more = xs; appendM(more, x); return more; }
// Each path ends with a `return`.
int32 sign(int32 n) { if (n < 0) { return -1; } else if (n == 0) { { return 0; } } else { return 1; } }
void nothing() {}
// Nothing at 0, and no divisor at 1.
void divide(int32 n) { if (n == 0) { return; } int32 quotient = 100 / (n - 1); }
void count_to(int32 n) { mutable int32 i = 0; while (true) { if (i == n) { return; } i = i + 1; } }
void count_to_each(int32 n) { mutable int32 i = 0; while (i < n) { i = i + 1; count_to(i); } }
"#;

/// The output ports of a handler, at 0 and 1.
pub(crate) const OUTPUTS: &str = r#"
void ports() { tuple<int32 n> N = {n = 0}; tuple<rstring s> S = {s = ''}; }
"#;

pub(crate) const ROWS: &str = r#"
# loops and calls take turns
# Neither takes a turn: no loop, and loops that don't begin.
mutable int32 n = 0; @ n = n + 1; @ 0 => 1 | none | 0
mutable int32 n = 0; @ while (n < 0) { n = n + 1; } @ 0 => 0 | none | 0
mutable list<int32> xs = []; @ for (int32 x in xs) { break; } @ 0 => [] | none | 0
# A call and a turn of a loop each take one.
mutable int32 n = 0; @ n = inc(n); @ 0 => Turns
mutable int32 n = 0; @ n = inc(n); @ 1 => 1 | none | 0
mutable int32 n = 0; @ n = twice(n); @ 2 => Turns
mutable int32 n = 0; @ n = twice(n); @ 3 => 2 | none | 0
mutable int32 n = 0; @ while (n < 3) { n = n + 1; } @ 2 => Turns
mutable int32 n = 0; @ while (n < 3) { n = n + 1; } @ 3 => 3 | none | 0
mutable int32 n = 0; mutable list<int32> xs = [10, 20, 30]; @ for (int32 x in xs) { n = n + x; } @ 2 => Turns
mutable int32 n = 0; mutable list<int32> xs = [10, 20, 30]; @ for (int32 x in xs) { n = n + x; } @ 3 => 60, [10, 20, 30] | none | 0
# The condition is evaluated before the turn is taken, and arguments before that of a call.
mutable int32 n = 0; @ while (1 / n == 1) {} @ 0 => DivZero
mutable int32 n = 0; mutable list<int32> xs = [10, 20, 30]; @ n = at(xs, 1 / n); @ 0 => DivZero
mutable int32 n = 0; mutable list<int32> xs = [10, 20, 30]; @ n = at(xs, 9); @ 0 => Turns
mutable int32 n = 0; mutable list<int32> xs = [10, 20, 30]; @ n = at(xs, 9); @ 1 => Index
# The place's index is evaluated twice, and so is the call in it.
mutable int32 n = 0; mutable list<int32> xs = [10, 20, 30]; @ xs[zero()] = xs[zero()] + 1; @ 2 => 0, [11, 20, 30] | none | 0
mutable int32 n = 0; mutable list<int32> xs = [10, 20, 30]; @ xs[zero()] = xs[zero()] + 1; @ 1 => Turns

# break continue and return leave loops
# Each inner loop counts once and breaks in its second turn: 3 turns, and 2 in each.
mutable int32 n = 0; @ mutable int32 i = 0; while (i < 3) { i = i + 1; mutable int32 j = 0; while (true) { j = j + 1; if (j == 2) { break; } n = n + 1; } } @ 100 => 3 | none | 91
mutable int32 n = 0; mutable list<int32> xs = [10, 20, 30]; @ for (int32 x in xs) { for (int32 y in xs) { if (y == 20) { break; } n = n + 1; } } @ 100 => 3, [10, 20, 30] | none | 91
# Both: the inner loop counts 20 at 10, and 10 and 20 at 30, and doesn't begin at 20.
mutable int32 n = 0; mutable list<int32> xs = [10, 20, 30]; @ for (int32 x in xs) { if (x == 20) { continue; } for (int32 y in xs) { if (y == x) { continue; } else if (y == 30) { break; } n = n + 1; } } @ 100 => 3, [10, 20, 30] | none | 91
# 1, 3 and 5 are added.
mutable int32 n = 0; @ mutable int32 i = 0; while (i < 5) { i = i + 1; if (i % 2 == 0) { continue; } n = n + i; } @ 100 => 9 | none | 95
# All but 20.
mutable int32 n = 0; mutable list<int32> xs = [10, 20, 30]; @ for (int32 x in xs) { if (x == 20) { continue; } n = n + x; } @ 100 => 40, [10, 20, 30] | none | 97
# `return` ends the body, out of both loops, in the first turn of the outer one and the fourth of the inner one.
mutable int32 n = 0; @ while (true) { while (true) { n = n + 1; if (n == 4) { return; } } } n = 100; @ 100 => 4 | none | 95

# for goes over what there was
# What is gone over is a copy of the start.
mutable int32 n = 0; mutable map<rstring, int64> m = {'a' : 1l, 'b' : 2l}; @ for (rstring x in m) { m['z'] = 9l; n = n + 1; } @ 100 => 2, {'a': 1, 'b': 2, 'z': 9} | none | 98
mutable int32 n = 0; mutable map<rstring, int64> m = {'a' : 1l, 'b' : 2l}; @ for (rstring x in m) { m[x] = m[x] * 10l; } @ 100 => 0, {'a': 10, 'b': 20} | none | 98
mutable int32 n = 0; mutable map<rstring, int64> m = {'a' : 1l, 'b' : 2l}; @ for (rstring x in m) { removeM(m, 'b'); n = n + 1; } @ 100 => 2, {'a': 1} | none | 98
mutable int32 n = 0; mutable list<int32> xs = [10, 20, 30]; @ for (int32 x in xs) { appendM(xs, x); } @ 100 => 0, [10, 20, 30, 10, 20, 30] | none | 97
mutable int32 n = 0; mutable list<int32> xs = [10, 20, 30]; @ for (int32 x in xs) { clearM(xs); n = n + x; } @ 100 => 60, [] | none | 97
mutable int32 n = 0; mutable list<int32> xs = [10, 20, 30]; @ for (int32 x in xs) { xs[2] = 0; n = n + x; } @ 100 => 60, [10, 20, 0] | none | 97
# The first turn adds a key and replaces the value of another, the second removes the first key.
mutable int32 n = 0; mutable map<rstring, int64> m = {'a' : 1l, 'b' : 2l}; @ for (rstring x in m) { if (x == 'a') { m['c'] = 3l; m['b'] = m['b'] * 10l; } else { removeM(m, 'a'); } submit({s = x}, S); } @ 100 => 0, {'b': 20, 'c': 3} | 1:<'a'>, 1:<'b'> | 98
# Keys come in ascending order, capitals before small letters.
mutable int32 n = 0; mutable map<rstring, int64> m = {'a' : 1l, 'b' : 2l}; @ m['A'] = 0l; for (rstring x in m) { submit({s = x}, S); } @ 100 => 0, {'A': 0, 'a': 1, 'b': 2} | 1:<'A'>, 1:<'a'>, 1:<'b'> | 97
mutable map<int32, list<rstring>> k = {2 : ['p']}; @ k[10] = []; k[-1] = ['q']; for (int32 x in k) { submit({n = x}, N); } @ 100 => {-1: ['q'], 2: ['p'], 10: []} | 0:<-1>, 0:<2>, 0:<10> | 97

# a loop takes its turns
mutable int32 n = 0; @ while (n < 10) { n = n + 1; submit({n = n}, N); } @ 20 => 10 | 0:<1>, 0:<2>, 0:<3>, 0:<4>, 0:<5>, 0:<6>, 0:<7>, 0:<8>, 0:<9>, 0:<10> | 10
mutable int32 n = 0; @ while (n < 10) { n = n + 1; submit({n = n}, N); } @ 10 => 10 | 0:<1>, 0:<2>, 0:<3>, 0:<4>, 0:<5>, 0:<6>, 0:<7>, 0:<8>, 0:<9>, 0:<10> | 0
mutable int32 n = 7; @ while (n < 10) { n = n + 1; submit({n = n}, N); } @ 3 => 10 | 0:<8>, 0:<9>, 0:<10> | 0
mutable int32 n = 10; @ while (n < 10) { n = n + 1; submit({n = n}, N); } @ 0 => 10 | none | 0
mutable int32 n = -1; @ while (n < 10) { n = n + 1; submit({n = n}, N); } @ 10 => Turns
mutable int32 n = 9; @ while (n < 10) { n = n + 1; submit({n = n}, N); } @ 0 => Turns

# a variable ends with its row
# The variable of the block ends with it, and then the earlier one is meant again.
mutable int32 n = 0; @ { mutable int32 n = 5; n = n + 1; submit({n = n}, N); } n = n + 10; @ 0 => 10 | 0:<6> | 0
# The first value sees the earlier variable, and that may have another type.
mutable int32 n = 0; @ rstring n = (rstring)(n + 1); submit({s = n + '!'}, S); @ 0 => 0 | 1:<'1!'> | 0
# A branch is a row of its own, and so is a loop's body.
mutable int32 n = 0; @ if (n == 0) { mutable int32 n = 7; } n = n + 1; @ 0 => 1 | none | 0
# The variable of a loop's body is new in each turn.
mutable int32 n = 0; @ mutable int32 i = 0; while (i < 3) { mutable int32 j = 0; j = j + 1; n = n + j; i = i + 1; } @ 100 => 3 | none | 97
# `break` and `continue` end the variables of the rows that they leave.
mutable int32 n = 0; @ while (n < 2) { mutable int32 i = n; n = i + 1; { int32 n = 9; if (i == 0) { continue; } else { break; } } } submit({n = n}, N); @ 100 => 2 | 0:<2> | 98

# submits come in their order
mutable int32 n = 0; @ submit({n = n}, N); n = 5; submit(Sys.WindowMarker, S); submit({s = 'x'}, S); submit({n = n}, N); return; submit({n = 6}, N); @ 0 => 5 | 0:<0>, 1:window, 1:<'x'>, 0:<5> | 0

# return ends a function at once
# The call takes a turn, and so does each of two turns of the function's loop.
mutable int32 n = 0; mutable list<int32> xs = [10, 20, 30]; @ n = first_above(xs, 15); @ 3 => 20, [10, 20, 30] | none | 0
mutable int32 n = 0; mutable list<int32> xs = [10, 20, 30]; @ n = first_above(xs, 15); @ 2 => Turns
mutable int32 n = 0; mutable list<int32> xs = [10, 20, 30]; @ n = first_above(xs, 50); @ 100 => -1, [10, 20, 30] | none | 96
# Out of both loops: the call, two turns of the outer one, and three of the inner one in each.
mutable int32 n = 0; mutable list<int32> xs = [10, 20, 30]; @ n = first_of_pair(xs); @ 100 => 20, [10, 20, 30] | none | 91
# It ends the function and not the loop that calls it: 3 turns, 3 calls, and 1, 2 and 3 turns.
mutable int32 n = 0; mutable list<int32> xs = [10, 20, 30]; @ for (int32 x in xs) { n = n + first_above(xs, x - 1); } @ 100 => 60, [10, 20, 30] | none | 88
# Each branch returns: -100, 0 and 1.
mutable int32 n = 0; @ n = sign(-5) * 100 + sign(0) * 10 + sign(7); @ 100 => -99 | none | 97

# a function has variables and loops of its own
# 1 + 2 + 3 + 4 in four turns.
mutable int32 n = 0; @ n = sum_to(4); @ 5 => 10 | none | 0
# 1 + 3 + 6. The call, three turns, and three calls with 1, 2 and 3 turns.
mutable int32 n = 0; @ n = sum_of_sums(3); @ 13 => 10 | none | 0
mutable int32 n = 0; @ n = sum_of_sums(3); @ 12 => Turns
# A function's variables are its own, and its arguments are copies.
mutable int32 n = 0; @ n = next_doubled(3); @ 1 => 8 | none | 0
mutable int32 n = 0; @ n = 3; next_doubled(n); @ 1 => 3 | none | 0
mutable int32 n = 0; mutable list<int32> xs = [10, 20, 30]; @ list<int32> more = with_last(xs, 40); n = more[3] + size(xs); @ 1 => 43, [10, 20, 30] | none | 0
# The condition takes a call each time, the last one too: 4 calls and 3 turns.
mutable int32 n = 0; @ while (is_below(n, 3)) { n = n + 1; } @ 7 => 3 | none | 0
mutable int32 n = 0; @ while (is_below(n, 3)) { n = n + 1; } @ 6 => Turns

# a function is called as a statement
mutable int32 n = 0; @ nothing(); @ 0 => Turns
mutable int32 n = 0; @ nothing(); @ 1 => 0 | none | 0
# A result isn't used.
mutable int32 n = 0; @ inc(n); @ 1 => 0 | none | 0
# Arguments are evaluated before the call takes its turn.
mutable int32 n = 0; @ inc(1 / n); @ 0 => DivZero
mutable int32 n = 0; @ inc(n); @ 0 => Turns
# A `return` without a value: in the loop's fourth turn, and before the division.
mutable int32 n = 0; @ count_to(3); @ 5 => 0 | none | 0
mutable int32 n = 0; @ count_to(3); @ 4 => Turns
mutable int32 n = 0; @ divide(n); @ 1 => 0 | none | 0
mutable int32 n = 0; @ divide(n + 5); @ 1 => 0 | none | 0
mutable int32 n = 0; @ submit({n = n}, N); divide(n + 1); @ 1 => DivZero
# The call, two turns, and two calls with 2 and 3 turns.
mutable int32 n = 0; @ count_to_each(2); @ 10 => 0 | none | 0
mutable int32 n = 0; @ count_to_each(2); @ 9 => Turns

# an assignment evaluates before it looks up
# A member of a member.
mutable tuple<int64 a, tuple<rstring b, boolean c> d> t = {a = 1l, d = {b = 'p', c = true}}; @ t.d.b = t.d.b + 'q'; @ 0 => <1, <'pq', true>> | none | 0
mutable tuple<int64 a, tuple<rstring b, boolean c> d> t = {a = 1l, d = {b = 'p', c = true}}; @ t.d = {c = false, b = 'r'}; @ 0 => <1, <'r', false>> | none | 0
mutable list<list<int32>> g = [[1], [2]]; @ g[1][0] = 7; @ 0 => [[1], [7]] | none | 0
mutable list<list<int32>> g = [[1], [2]]; @ g[2][0] = 7; @ 0 => Index
mutable list<list<int32>> g = [[1], [2]]; @ g[1][1] = 7; @ 0 => Index
mutable list<int32> xs = [10, 20, 30]; @ xs[0 - 1] = 7; @ 0 => Index
# All indexes are evaluated before any is looked up.
mutable list<list<int32>> g = [[1], [2]]; @ g[9][1 / 0] = 1; @ 0 => DivZero
# The right side comes before the place's indexes.
mutable list<int32> xs = [10, 20, 30]; @ xs[1 / 0] = xs[9]; @ 0 => Index
mutable list<int32> xs = [10, 20, 30]; @ xs[9] = 1 / 0; @ 0 => DivZero
# A key is added where it is the last step, and nowhere else.
mutable list<map<rstring, int64>> h = [{'a' : 1l}]; @ h[0]['b'] = 2l; @ 0 => [{'a': 1, 'b': 2}] | none | 0
mutable list<map<rstring, int64>> h = [{'a' : 1l}]; @ h[1]['b'] = 2l; @ 0 => Index
mutable map<int32, list<rstring>> k = {1 : ['p']}; @ k[2] = ['x']; @ 0 => {1: ['p'], 2: ['x']} | none | 0
mutable map<int32, list<rstring>> k = {1 : ['p']}; @ k[1] = []; @ 0 => {1: []} | none | 0
mutable map<int32, list<rstring>> k = {1 : ['p']}; @ k[2][0] = 'x'; @ 0 => NoKey
mutable map<int32, list<rstring>> k = {1 : ['p']}; @ k[2] = k[2]; @ 0 => NoKey

# a change looks its place up first
mutable map<int32, list<rstring>> k = {1 : ['p']}; @ appendM(k[1], 'q'); @ 0 => {1: ['p', 'q']} | none | 0
mutable map<int32, list<rstring>> k = {1 : ['p']}; @ appendM(k[2], 'q'); @ 0 => NoKey
# The place's index is evaluated once, and so is the call in it.
mutable list<list<int32>> g = [[1], [2]]; @ appendM(g[zero()], 7); @ 1 => [[1, 7], [2]] | none | 0
mutable list<list<int32>> g = [[1], [2]]; @ appendM(g[zero()], 7); @ 0 => Turns
# The argument is evaluated behind the place.
mutable map<int32, list<rstring>> k = {1 : ['p']}; @ appendM(k[2], (rstring)(1 / 0)); @ 0 => NoKey
mutable map<int32, list<rstring>> k = {1 : ['p']}; @ appendM(k[1], (rstring)(1 / 0)); @ 0 => DivZero
mutable map<int32, list<rstring>> k = {1 : ['p']}; @ removeM(k, 1); @ 0 => {} | none | 0
mutable map<int32, list<rstring>> k = {1 : ['p']}; @ removeM(k, 2); @ 0 => {1: ['p']} | none | 0
mutable map<int32, list<rstring>> k = {1 : ['p']}; @ removeM(k, 1 / 0); @ 0 => DivZero
mutable map<int32, list<rstring>> k = {1 : ['p']}; @ clearM(k); @ 0 => {} | none | 0
mutable map<int32, list<rstring>> k = {1 : ['p']}; @ clearM(k[1]); @ 0 => {1: []} | none | 0
mutable map<int32, list<rstring>> k = {1 : ['p']}; @ clearM(k[2]); @ 0 => NoKey

# the first fault ends a body
# A fault leaves neither variables nor submits.
mutable int32 n = 0; @ n = 1; submit({n = n}, N); n = n / (n - 1); n = 3; @ 0 => DivZero
# In the fourth turn `n` is 3.
mutable int32 n = 0; @ while (true) { n = n + 1 + 0 / (3 - n); } @ 100 => DivZero
# A call whose value isn't used is evaluated.
mutable int32 n = 0; @ substring('ab', 3, 1); @ 0 => Index
mutable int32 n = 0; @ length('ab'); @ 0 => 0 | none | 0
# Conditions are evaluated up to the first that is true.
mutable int32 n = 0; @ if (n == 0) { n = 1; } else if (1 / n == 1) { n = 2; } else { n = 3; } @ 0 => 1 | none | 0
mutable int32 n = 0; @ if (n == 1) {} else if (1 / n == 1) {} else { n = 3; } @ 0 => DivZero
mutable int32 n = 0; @ if (n == 1) {} else if (n == 2) {} else { n = 3; } @ 0 => 3 | none | 0
"#;

pub(crate) const MILLIONS: &str = r#"
# a million turns are run
mutable int32 n = 0; @ while (n < 999999) { n = n + 1; } @ 1000000 => 999999 | none | 1
mutable int32 n = 0; @ while (n < 1000000) { n = n + 1; } @ 1000000 => 1000000 | none | 0
mutable int32 n = 0; @ while (n < 1000001) { n = n + 1; } @ 1000000 => Turns
mutable int32 n = 0; mutable map<rstring, int64> m = {'a' : 1l, 'b' : 2l}; @ while (n < 1000000) { m['a'] = m['a'] + 1l; n = n + 1; } @ 1000000 => 1000000, {'a': 1000001, 'b': 2} | none | 0
"#;

/// Maps of many keys.
pub(crate) const MAPS: &str = r#"
# keys are put in each order
mutable int32 n = 0; @ mutable map<int32, int32> m = {}; mutable int32 i = 0; while (i < 300) { m[i] = 2 * i; i = i + 1; } submit({n = m[0] + m[127] + m[128] + m[299]}, N); for (int32 x in m) { if (x == n) { n = n + 1; } } submit({n = size(m)}, N); @ 600 => 300 | 0:<1108>, 0:<300> | 0
mutable int32 n = 0; @ mutable map<int32, int32> m = {}; mutable int32 i = 0; while (i < 300) { m[299 - i] = i; i = i + 1; } submit({n = m[0] + m[127] + m[128] + m[299]}, N); for (int32 x in m) { if (x == n) { n = n + 1; } } submit({n = size(m)}, N); @ 600 => 300 | 0:<642>, 0:<300> | 0
# 7 and 300 have no common factor, so each key comes once; the values are 0 to 299.
mutable int32 n = 0; @ mutable map<int32, int32> m = {}; mutable int32 i = 0; while (i < 300) { m[i * 7 % 300] = i; i = i + 1; } mutable int32 sum = 0; for (int32 x in m) { sum += m[x]; if (x == n) { n = n + 1; } } submit({n = sum}, N); submit({n = size(m)}, N); @ 600 => 300 | 0:<44850>, 0:<300> | 0
mutable int32 n = 0; @ mutable map<int32, int32> m = {}; mutable int32 i = 0; while (i < 300) { m[i] = 2 * i; i = i + 1; } n = m[300]; @ 300 => NoKey

# keys are taken out, absent ones too
mutable int32 n = 0; @ mutable map<int32, int32> m = {}; mutable int32 i = 0; while (i < 300) { m[i] = 2 * i; i = i + 1; } i = 0; while (i < 150) { removeM(m, 2 * i + 1); removeM(m, 2 * i + 1); removeM(m, 300 + i); removeM(m, -1 - i); i = i + 1; } submit({n = size(m)}, N); for (int32 x in m) { if (x == 2 * n && m[x] == 4 * n) { n = n + 1; } } i = 0; while (i < 150) { m[2 * i + 1] = 0; i = i + 1; } submit({n = size(m)}, N); @ 750 => 150 | 0:<150>, 0:<300> | 0
mutable int32 n = 0; @ mutable map<int32, int32> m = {}; mutable int32 i = 0; while (i < 300) { m[i] = 2 * i; i = i + 1; } i = 0; while (i < 300) { removeM(m, i); removeM(m, i); if (!has(m, i) && size(m) == 299 - i) { n = n + 1; } i = i + 1; } i = 0; while (i < 300) { m[i] = i; i = i + 1; } submit({n = size(m)}, N); @ 900 => 300 | 0:<300> | 0
mutable int32 n = 0; @ mutable map<int32, int32> m = {}; mutable int32 i = 0; while (i < 300) { m[i] = 2 * i; i = i + 1; } while (i > 0) { i = i - 1; removeM(m, i); removeM(m, i); if (!has(m, i) && size(m) == i) { n = n + 1; } } m[5] = 6; submit({n = m[5]}, N); submit({n = size(m)}, N); @ 600 => 300 | 0:<6>, 0:<1> | 0
mutable map<int32, int32> m = {}; @ mutable int32 i = 0; while (i < 300) { m[i] = i; i = i + 1; } removeM(m, -1); clearM(m); removeM(m, 7); @ 300 => {} | none | 0

# maps in maps and in lists are their own
mutable int32 n = 0; @ mutable map<int32, map<int32, int32>> m = {}; mutable int32 i = 0; while (i < 150) { m[i] = {}; mutable int32 j = 0; while (j < 150) { m[i][j] = i + j; j = j + 1; } i = i + 1; } map<int32, int32> k = m[8]; m[8][0] = -1; removeM(m[7], 149); removeM(m[7], 149); removeM(m[9], 500); submit({n = m[149][149]}, N); submit({n = size(m[7])}, N); submit({n = size(m[9])}, N); submit({n = k[0]}, N); for (int32 x in m) { for (int32 y in m[x]) { n = n + 1; } } @ 50000 => 22499 | 0:<298>, 0:<149>, 0:<150>, 0:<8> | 4701
mutable int32 n = 0; @ mutable map<int32, int32> m = {}; mutable int32 i = 0; while (i < 300) { m[i] = 2 * i; i = i + 1; } mutable list<map<int32, int32>> xs = []; appendM(xs, m); m[0] = -5; appendM(xs, m); removeM(xs[0], 299); xs[0][300] = 1; submit({n = size(xs[0])}, N); submit({n = xs[1][0]}, N); submit({n = xs[1][299]}, N); submit({n = xs[0][0]}, N); if (xs[1] == m && xs[0] != m) { n = 1; } @ 300 => 1 | 0:<300>, 0:<-5>, 0:<598>, 0:<0> | 0

# equal maps are equal, and one key, however they were built
mutable int32 n = 0; @ mutable map<int32, int32> m = {}; mutable int32 i = 0; while (i < 300) { m[i] = 2 * i; i = i + 1; } mutable map<int32, int32> k = {}; i = 400; while (i > 0) { i = i - 1; k[i] = 2 * i; } i = 300; while (i < 400) { removeM(k, i); i = i + 1; } if (m == k) { n = n + 1; } k[299] = 0; if (m != k) { n = n + 1; } @ 800 => 2 | none | 0
mutable int32 n = 0; @ mutable map<int32, int32> m = {}; mutable int32 i = 0; while (i < 300) { m[i] = 2 * i; i = i + 1; } mutable map<int32, int32> k = {}; i = 400; while (i > 0) { i = i - 1; k[i] = 2 * i; } i = 300; while (i < 400) { removeM(k, i); i = i + 1; } mutable map<map<int32, int32>, int32> t = {}; t[m] = 1; t[k] = 2; submit({n = t[m]}, N); n = size(t); @ 800 => 1 | 0:<2> | 0
"#;

pub(crate) const REFUSED: &str = r#"
# No loop is around it.
mutable int32 n = 0; mutable list<int32> xs = []; @ break; @ 0 => Y4 at 14
mutable int32 n = 0; mutable list<int32> xs = []; @ continue; @ 0 => Y4 at 14
mutable int32 n = 0; mutable list<int32> xs = []; @ while (n < 0) {} break; @ 0 => Y4 at 31
# The variable is gone, or isn't there yet.
mutable int32 n = 0; mutable list<int32> xs = []; @ { mutable int32 i = 0; } i = 1; @ 0 => Y1 at 39 i
mutable int32 n = 0; mutable list<int32> xs = []; @ mutable int32 i = i + 1; @ 0 => Y1 at 32 i
mutable int32 n = 0; mutable list<int32> xs = []; @ for (int32 x in xs) {} n = x; @ 0 => Y1 at 41 x
# It may not be changed.
mutable int32 n = 0; mutable list<int32> xs = []; @ int32 i = 0; i = 1; @ 0 => Y3 at 27
mutable int32 n = 0; mutable list<int32> xs = []; @ for (int32 x in xs) { x = 1; } @ 0 => Y3 at 36
# The types differ.
mutable int32 n = 0; mutable list<int32> xs = []; @ n = 1l; @ 0 => Y2 at 18
mutable int32 n = 0; mutable list<int32> xs = []; @ mutable int64 i = n; @ 0 => Y2 at 32
mutable int32 n = 0; mutable list<int32> xs = []; @ appendM(xs, 'a'); @ 0 => Y2 at 26
mutable int32 n = 0; mutable list<int32> xs = []; @ while (n) {} @ 0 => Y2 at 21
mutable int32 n = 0; mutable list<int32> xs = []; @ if (n) {} @ 0 => Y2 at 18
mutable int32 n = 0; mutable list<int32> xs = []; @ submit({s = 'x'}, N); @ 0 => Y2 at 21
mutable int32 n = 0; mutable list<int32> xs = []; @ appendM(n, 1); @ 0 => Y4 at 14
mutable int32 n = 0; mutable list<int32> xs = []; @ removeM(xs, 1); @ 0 => Y4 at 14
mutable int32 n = 0; mutable list<int32> xs = []; @ clearM(n); @ 0 => Y4 at 14
mutable int32 n = 0; mutable list<int32> xs = []; @ for (int64 x in xs) {} @ 0 => Y2 at 30
mutable int32 n = 0; mutable list<int32> xs = []; @ for (int32 x in n) {} @ 0 => Y2 at 30
# No place, no such port, and a value where none is returned.
mutable int32 n = 0; mutable list<int32> xs = []; @ 1 = 1; @ 0 => Unexpected at 14
mutable int32 n = 0; mutable list<int32> xs = []; @ (xs)[0] = 1; @ 0 => Unexpected at 14
mutable int32 n = 0; mutable list<int32> xs = []; @ submit({n = 1}, Z); @ 0 => Y1 at 30 Z
mutable int32 n = 0; mutable list<int32> xs = []; @ submit(Sys.WindowMarker, Z); @ 0 => Y1 at 39 Z
mutable int32 n = 0; mutable list<int32> xs = []; @ return 1; @ 0 => Y4 at 14
# No call, or one that doesn't fit the function.
mutable int32 n = 0; mutable list<int32> xs = []; @ n + 1; @ 0 => Unexpected at 16
mutable int32 n = 0; mutable list<int32> xs = []; @ n; @ 0 => Unexpected at 15
mutable int32 n = 0; mutable list<int32> xs = []; @ nowhere(n); @ 0 => Y1 at 14 nowhere
mutable int32 n = 0; mutable list<int32> xs = []; @ inc(); @ 0 => Y4 at 14
mutable int32 n = 0; mutable list<int32> xs = []; @ inc(1, 2); @ 0 => Y4 at 14
mutable int32 n = 0; mutable list<int32> xs = []; @ inc(1l); @ 0 => Y2 at 18
mutable int32 n = 0; mutable list<int32> xs = []; @ n = nothing(); @ 0 => Y2 at 18
"#;

pub(crate) const FUNCTIONS_REFUSED: &str = r#"
# Some path has no result.
int32 f(int32 n) {} => Y6 at 6 f
int32 f(int32 n) { if (n == 0) { return 1; } } => Y6 at 6 f
int32 f(int32 n) { if (n == 0) {} else { return 1; } } => Y6 at 6 f
int32 f(int32 n) { while (true) { return 1; } } => Y6 at 6 f
int32 f(int32 n) { return 1; int32 i = 0; } => Y6 at 6 f
# It has another result, or none.
int32 f(int32 n) { return 1l; } => Y2 at 26
int32 f(int32 n) { return; } => Y4 at 19
void f(int32 n) { return 1; } => Y4 at 18
# It submits nothing, changes no parameter, and sees no variable but its own.
void f(int32 n) { submit({n = n}, N); } => Y4 at 18
void f(int32 n) { submit(Sys.WindowMarker, N); } => Y4 at 18
void f(int32 n) { n = 1; } => Y3 at 18
void f(int32 n) { xs = [n]; } => Y1 at 18 xs
void f(int32 n) { break; } => Y4 at 18
"#;
