//! Operators, casts and the conditional, and members, elements and values at keys.

pub(crate) const ROWS: &str = r#"
# a prefix is on its type
# `!`
!b => boolean | (unary ! v4)
!!b => boolean | (unary ! ! v4)
!(i < 1) => boolean | (unary ! (< v1 1))
!t.d.c => boolean | (unary ! (of v10 .1 .1))
!i => Y2 at 1
!s => Y2 at 1
!(i) => Y2 at 1
!!i => Y2 at 2
!-i => Y2 at 1
# `-`
-i => int32 | (unary -int32 v1)
-n => int64 | (unary -int64 v2)
-u => uint8 | (unary -uint8 v3)
-5 => int32 | (unary -int32 5)
-t.a => int64 | (unary -int64 (of v10 .0))
-i + 1 => int32 | (+int32 (unary -int32 v1) 1)
-s => Y2 at 1
-b => Y2 at 1
-xs => Y2 at 1
-[] => Y2 at 1
-!i => Y2 at 2
-z => Y1 at 1 z
-i -> int64 => Y2 at 0
# `~`
~i => int32 | (unary ~int32 v1)
~u => uint8 | (unary ~uint8 v3)
~-u => uint8 | (unary ~uint8 -uint8 v3)
-~n => int64 | (unary -int64 ~int64 v2)
~b => Y2 at 1
~s => Y2 at 1
~!b => Y2 at 1

# a cast is on its type
# Casts to integers.
(int8) i => int8 | (unary as-int8 v1)
(int32) i => int32 | (unary as-int32 v1)
(int64) i + n => int64 | (+int64 (unary as-int64 v1) v2)
(int64) (i + 1) => int64 | (unary as-int64 (+int32 v1 1))
-(int8) i => int8 | (unary -int8 as-int8 v1)
(uint64) ~u => uint64 | (unary as-uint64 ~uint8 v3)
(int32) b => Y2 at 8
(int32) s => Y2 at 8
(int32) (s) => Y2 at 8
(uint8) [] => Y2 at 8
(int8) (rstring) i => Y2 at 7
!(int8) i => Y2 at 1
(int8) z => Y1 at 7 z
(int8) i -> int32 => Y2 at 0
# Casts to texts.
(rstring) i => rstring | (unary as-rstring v1)
(rstring) u => rstring | (unary as-rstring v3)
(rstring) b => rstring | (unary as-rstring v4)
(rstring) !b => rstring | (unary as-rstring ! v4)
(rstring) (int8) -i => rstring | (unary as-rstring as-int8 -int32 v1)
(rstring) s => Y2 at 10
(rstring) 'a' => Y2 at 10
(rstring) xs => Y2 at 10
(rstring) t => Y2 at 10
-(rstring) i => Y2 at 1

# arithmetic is at one type
# Operands of one integer type.
i + 1 => int32 | (+int32 v1 1)
n - 1l => int64 | (-int64 v2 1)
u * 2ub => uint8 | (*uint8 v3 2)
n / n => int64 | (/int64 v2 v2)
i % 10 => int32 | (%int32 v1 10)
u & 15ub => uint8 | (&uint8 v3 15)
i ^ i => int32 | (^int32 v1 v1)
n | 1l => int64 | (|int64 v2 1)
i - 1 - 2 => int32 | (-int32 (-int32 v1 1) 2)
1 + 2 * 3 => int32 | (+int32 1 (*int32 2 3))
(i + 1) * 2 => int32 | (*int32 (+int32 v1 1) 2)
i & 1 | 2 ^ 3 => int32 | (|int32 (&int32 v1 1) (^int32 2 3))
price * L.qty => int64 | (*int64 a0.1 a0.2)
t.a + xs[0] => int64 | (+int64 (of v10 .0) (of v6 [0]))
# Another type on the right.
i + n => Y2 at 4
n + 1 => Y2 at 4
u + 1 => Y2 at 4
i + 'a' => Y2 at 4
i * b => Y2 at 4
1 + (2l) => Y2 at 5
i + [] => Y2 at 4
price * qty => Y2 at 8
i & b => Y2 at 4
# Another type on the left.
b + b => Y2 at 0
(b) + 1 => Y2 at 0
b & b => Y2 at 0
xs + xs => Y2 at 0
t + t => Y2 at 0
m - m => Y2 at 0
[] + i => Y2 at 0
i + b * 2 => Y2 at 4

# plus joins texts
# `+` of texts.
s + 'a' => rstring | (join v5 'a')
'a' + 'b' + s => rstring | (join (join 'a' 'b') v5)
s + ('a' + s) => rstring | (join v5 (join 'a' v5))
s + (rstring) i => rstring | (join v5 (unary as-rstring v1))
L.key + R.key => rstring | (join a0.0 a1.0)
s + 1 => Y2 at 4
s + (1) => Y2 at 5
s + true => Y2 at 4
s + x => Y2 at 4
1 + s => Y2 at 4
s + s -> int32 => Y2 at 0
# No other operator.
s - s => Y2 at 0
s * s => Y2 at 0
s / 'a' => Y2 at 0
s % s => Y2 at 0
s & s => Y2 at 0
s ^ s => Y2 at 0
s | s => Y2 at 0

# an order is of integers or texts
# Integers and texts.
i < 1 => boolean | (< v1 1)
n <= 1l => boolean | (<= v2 1)
s > 'a' => boolean | (> v5 'a')
u >= 1ub => boolean | (>= v3 1)
'a' < s => boolean | (< 'a' v5)
s <= s => boolean | (<= v5 v5)
s >= L.key => boolean | (>= v5 a0.0)
price > 10l => boolean | (> a0.1 10)
i + 1 < i * 2 => boolean | (< (+int32 v1 1) (*int32 v1 2))
i < 1 -> boolean => boolean | (< v1 1)
i < 1 -> int32 => Y2 at 0
# Another type on the right.
i < n => Y2 at 4
s < 1 => Y2 at 4
s <= (1) => Y2 at 6
1 > 'a' => Y2 at 4
i >= [] => Y2 at 5
# Another type on the left.
b < b => Y2 at 0
xs < xs => Y2 at 0
m <= m => Y2 at 0
t >= t => Y2 at 0
[] > xs => Y2 at 0
1 < 2 < 3 => Y2 at 0

# equality is of one type
# Two values of one type.
i == 1 => boolean | (== v1 1)
b != true => boolean | (!= v4 true)
s == 'a' => boolean | (== v5 'a')
xs == ys => boolean | (== v6 v12)
m != ms => boolean | (!= v8 v13)
t == t => boolean | (== v10 v10)
t.d == R.d => boolean | (== (of v10 .1) a1.2)
L == L => boolean | (== p0 p0)
1 == 1 == true => boolean | (== (== 1 1) true)
# The right place wants the left type.
xs == [] => boolean | (== v6 (list))
g != [[]] => boolean | (!= v7 (list (list)))
m == {} => boolean | (== v8 (map))
t == {d = {c = b, b = s}, a = 1l} => boolean | (== v10 (tuple 1=(tuple 1=v4 0=v5) 0=1))
{b = s, c = b} == t.d => boolean | (== (tuple 0=v5 1=v4) (of v10 .1))
{c = b, b = s} == t.d => Y2 at 18
[] == xs => Y2 at 0
{} != m => Y2 at 0
# Another type on the right.
i == n => Y2 at 5
i == (n) => Y2 at 6
i != 'a' => Y2 at 5
L == R => Y2 at 5
xs == x => Y2 at 6
xs == [1] => Y2 at 7
m != {'a' : 1} => Y2 at 12
t == {a = 1l} => Y2 at 5
g == [xs] => Y2 at 6
k == {1 : xs} => Y2 at 10
i == 1 -> int32 => Y2 at 0
# Tuples with other names, types or order.
{b = s, e = b} == d => Y2 at 18
{b = s, c = s} == d => Y2 at 18
{c = b, b = s} == d => Y2 at 18
{b = s} == d => Y2 at 11
d == {b = s, e = b} => Y2 at 5

# logic is of booleans
# Booleans.
b && true => boolean | (&& v4 true)
b || !b => boolean | (|| v4 (unary ! v4))
b && b || b => boolean | (|| (&& v4 v4) v4)
b || b && b => boolean | (|| v4 (&& v4 v4))
b == b && b => boolean | (&& (== v4 v4) v4)
i < 1 && s > 'a' => boolean | (&& (< v1 1) (> v5 'a'))
b && b -> rstring => Y2 at 0
# Other types.
b && i => Y2 at 5
b || 's' => Y2 at 5
b && (1) => Y2 at 6
b && [] => Y2 at 5
i && b => Y2 at 0
s || b => Y2 at 0
xs && b => Y2 at 0
[] || b => Y2 at 0
b || 1 && b => Y2 at 5

# membership is in a list or a map
# In lists.
n in xs => boolean | (in-list v2 v6)
1l in xs => boolean | (in-list 1 v6)
n in [1l, 2l] => boolean | (in-list v2 (list 1 2))
[1] in g => boolean | (in-list (list 1) v7)
'a' in k[0] => boolean | (in-list 'a' (of v9 {0}))
n in (xs) => boolean | (in-list v2 v6)
n in xs == b => boolean | (== (in-list v2 v6) v4)
{b = s, c = b} in [t.d] => boolean | (in-list (tuple 0=v5 1=v4) (list (of v10 .1)))
i in xs => Y2 at 5
u in xs => Y2 at 5
i in (xs) => Y2 at 5
n in [] => Y2 at 5
[] in g => Y2 at 0
{c = b, b = s} in [t.d] => Y2 at 18
# In maps.
s in m => boolean | (in-map v5 v8)
i in k => boolean | (in-map v1 v9)
'a' in {'a' : 1} => boolean | (in-map 'a' (map 'a':1))
i in m => Y2 at 5
n in m => Y2 at 5
s in k => Y2 at 5
n in {} => Y2 at 5
{} in xs => Y2 at 0
# In nothing else.
n in n => Y2 at 5
'a' in s => Y2 at 7
n in t => Y2 at 5
b in b => Y2 at 5
n in z => Y1 at 5 z
n in xs -> int64 => Y2 at 0

# a conditional has the type of its branches
# Branches of one type.
b ? 1 : 2 => int32 | (? v4 1 2)
(b) ? s : 'a' => rstring | (? v4 v5 'a')
i < 1 ? n : 2l => int64 | (? (< v1 1) v2 2)
b ? i : b ? 1 : 2 => int32 | (? v4 v1 (? v4 1 2))
b ? b ? 1 : 2 : i => int32 | (? v4 (? v4 1 2) v1)
b ? t.d : {c = true, b = ''} => tuple<rstring b, boolean c> | (? v4 (of v10 .1) (tuple 1=true 0=''))
(b ? s : 'a') + s => rstring | (join (? v4 v5 'a') v5)
b ? 1l : n -> int64 => int64 | (? v4 1 v2)
# Branches of two types.
b ? 1 : 2l => Y2 at 8
b ? s : 1 => Y2 at 8
b ? 1 : xs => Y2 at 8
(b ? i : n) => Y2 at 9
b ? b : b ? b : i => Y2 at 16
b ? 1 : n -> int64 => Y2 at 4
# The condition.
i ? 1 : 2 => Y2 at 0
(i) ? 1 : 2 => Y2 at 1
s ? 1 : 2 -> int64 => Y2 at 0
[] ? 1 : 2 => Y2 at 0
z ? 1 : 2 => Y1 at 0 z

# a member is of a tuple
# Members.
t.a => int64 | (of v10 .0)
t.d => tuple<rstring b, boolean c> | (of v10 .1)
t.d.c => boolean | (of v10 .1 .1)
(t).a => int64 | (of v10 .0)
(t.d).b => rstring | (of (of v10 .1) .0)
d.b => rstring | (of a1.2 .0)
R.d.c => boolean | (of a1.2 .1)
(R.d).c => boolean | (of a1.2 .1)
{a = 1, b = true}.b => boolean | (of (tuple 0=1 1=true) .1)
swap(t).c => boolean | (of (f4 v10) .1)
t.a -> int64 => int64 | (of v10 .0)
t.a -> int32 => Y2 at 0
(t.a) -> int32 => Y2 at 1
# Members that a tuple doesn't have.
t.b => Y1 at 2 b
t.d.a => Y1 at 4 a
(t).z => Y1 at 4 z
R.d.rank => Y1 at 4 rank
t.z -> int64 => Y1 at 2 z
# Members of no tuple.
i.a => Y2 at 0
xs.a => Y2 at 0
m.a => Y2 at 0
'a'.b => Y2 at 0
5.a => Y2 at 0
true.a => Y2 at 0
t.a.b => Y2 at 0
(i).a => Y2 at 0
[1].a => Y2 at 0

# an element is at an integer
# Elements, at any integer type.
xs[0] => int64 | (of v6 [0])
xs[i] => int64 | (of v6 [v1])
xs[n] => int64 | (of v6 [v2])
xs[u] => int64 | (of v6 [v3])
xs[rank] => int64 | (of v6 [a1.1])
xs[xs[0]] => int64 | (of v6 [(of v6 [0])])
xs[(i)] => int64 | (of v6 [v1])
(xs)[0] => int64 | (of v6 [0])
g[0] => list<int32> | (of v7 [0])
g[0][i] => int32 | (of v7 [0] [v1])
L.ls[0] => int32 | (of a0.3 [0])
ls[0] => int32 | (of a0.3 [0])
[1, 2][i] => int32 | (of (list 1 2) [v1])
[t][0].d.b => rstring | (of (list v10) [0] .1 .0)
xs[0] -> int32 => Y2 at 0
# Indexes that are no integers.
xs[b] => Y2 at 3
xs['a'] => Y2 at 3
xs[xs] => Y2 at 3
xs[(b)] => Y2 at 3
xs[[]] => Y2 at 3
xs[{}] => Y2 at 3
xs[z] => Y1 at 3 z
# Elements of no list.
i[0] => Y2 at 0
s[0] => Y2 at 0
t[0] => Y2 at 0
xs[0][0] => Y2 at 0
(i)[0] => Y2 at 0
[][0] => Y2 at 0

# a value is at a key
# Values at keys.
m['a'] => int64 | (of v8 {'a'})
m[s] => int64 | (of v8 {v5})
m[L.key] => int64 | (of v8 {a0.0})
m[(s)] => int64 | (of v8 {v5})
k[i] => list<rstring> | (of v9 {v1})
k[1][0] => rstring | (of v9 {1} [0])
{1 : 'a'}[2] => rstring | (of (map 1:'a') {2})
m['a'] -> int32 => Y2 at 0
# A key's place wants the type of keys.
{[1] : 2}[[]] => int32 | (of (map (list 1):2) {(list)})
{t.d : 2}[{c = b, b = s}] => int32 | (of (map (of v10 .1):2) {(tuple 1=v4 0=v5)})
m[b ? s : 'a'] => int64 | (of v8 {(? v4 v5 'a')})
# Keys of other types.
m[1] => Y2 at 2
m[(1)] => Y2 at 3
m[[]] => Y2 at 2
k[n] => Y2 at 2
k[u] => Y2 at 2
k[i]['a'] => Y2 at 5
m[z] => Y1 at 2 z
# Values of no map.
m['a'][0] => Y2 at 0
b['a'] => Y2 at 0
{}['a'] => Y2 at 0
"#;
