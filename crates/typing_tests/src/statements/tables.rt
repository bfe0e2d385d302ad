//! Assignments, compound assignments and calls.

pub(crate) const ROWS: &str = r#"
# an assignment puts its right side
i = 1 => (put v1 1)
n = 1l => (put v2 1)
s = 'a' => (put v5 'a')
xs = ys => (put v6 v12)
# What is taken of a variable.
xs[0] = 2l => (put (of v6 [0]) 2)
xs[n] = n => (put (of v6 [v2]) v2)
g[1][i] = 3 => (put (of v7 [1] [v1]) 3)
m['a'] = 1l => (put (of v8 {'a'}) 1)
k[1][0] = s => (put (of v9 {1} [0]) v5)
t.a = L.price => (put (of v10 .0) a0.1)
t.d.c = true => (put (of v10 .1 .1) true)
# The type of what the place holds is wanted of the right side.
xs = [] => (put v6 (list))
xs = b ? [] : ys => (put v6 (? v4 (list) v12))
m = {} => (put v8 (map))
g[0] = [] => (put (of v7 [0]) (list))
t.d = {c = b, b = s} => (put (of v10 .1) (tuple 1=v4 0=v5))
# A variable stands before an attribute of its name.
qty = i => (put v14 v1)

# the place of an assignment is refused first
# The place has no type.
z = 1 => Y1 at 0 z
t.z = 1 => Y1 at 2 z
xs[b] = 1l => Y2 at 3
m[1] = 1l => Y2 at 2
i[0] = 1 => Y2 at 0
# What is assigned to is no place.
1 = 1 => Y4 at 0
(i) = 1 => Y4 at 0
(xs)[0] = 1l => Y4 at 0
i + 1 = 1 => Y4 at 0
inc(1) = 1 => Y4 at 0
# It isn't mutable. Of the two variables `x` the last counts.
b = true => Y3 at 0
x = [] => Y3 at 0
ys[0] = 1l => Y3 at 0
ms['a'] = 1l => Y3 at 0
price = 1l => Y3 at 0
L.price = 1l => Y3 at 0
ls[0] = 1 => Y3 at 0
L = L => Y3 at 0
# The right side has no type, or another one.
s = z => Y1 at 4 z
i = 1l => Y2 at 4
i = (n) => Y2 at 5
xs = [1] => Y2 at 6
xs[0] = i => Y2 at 8
t.d = {b = s} => Y2 at 6
s = log('a') => Y2 at 4
s = appendM(xs, 1l) => Y2 at 4
# The place comes first.
z = y => Y1 at 0 z
(z) = y => Y1 at 1 z
1 = z => Y4 at 0
u = z => Y3 at 0
xs[z] = y => Y1 at 3 z
ys[z] = 1l => Y1 at 3 z

# a compound assignment puts both operands
i += 1 => (put v1 (+int32 v1 1))
n -= 1l => (put v2 (-int64 v2 1))
n *= n => (put v2 (*int64 v2 v2))
i /= 2 => (put v1 (/int32 v1 2))
i %= 2 => (put v1 (%int32 v1 2))
s += 'a' => (put v5 (join v5 'a'))
# The right side is one operand.
i -= 1 - 2 => (put v1 (-int32 v1 (-int32 1 2)))
i *= b ? 1 : 2 => (put v1 (*int32 v1 (? v4 1 2)))
# Indexes and keys stand twice.
xs[inc(i)] += n => (put (of v6 [(f0 v1)]) (+int64 (of v6 [(f0 v1)]) v2))
m[s] -= 1l => (put (of v8 {v5}) (-int64 (of v8 {v5}) 1))
t.a *= 2l => (put (of v10 .0) (*int64 (of v10 .0) 2))
# The operator isn't one of the type.
s -= 'a' => Y2 at 0
s -= z => Y2 at 0
xs += xs => Y2 at 0
g[0] += [] => Y2 at 0
t.d.c += true => Y2 at 0
# The right side has no type, or another one.
i += 1l => Y2 at 5
s += 1 => Y2 at 5
xs[0] += z => Y1 at 9 z
# The place is refused first.
z += y => Y1 at 0 z
(i) += z => Y4 at 0
u += z => Y3 at 0
b += z => Y3 at 0

# some calls change a place
appendM(xs, 1l) => (append v6 1)
appendM(g, []) => (append v7 (list))
appendM(g[0], 1) => (append (of v7 [0]) 1)
appendM(k[1], s) => (append (of v9 {1}) v5)
removeM(m, 'a') => (remove v8 'a')
removeM(k, i) => (remove v9 v1)
clearM(xs) => (clear v6)
clearM(m) => (clear v8)
clearM(k[1]) => (clear (of v9 {1}))
# A first argument of another type.
appendM(m, 'a') => Y4 at 0
removeM(xs, 1) => Y4 at 0
clearM(s) => Y4 at 0
# No place.
appendM((xs), 1l) => Y4 at 0
removeM({1 : 1}, 1) => Y4 at 0
clearM([1]) => Y4 at 0
# A place that may not be changed.
appendM(ys, z) => Y3 at 8
removeM(ms, 'a') => Y3 at 8
clearM(ys) => Y3 at 7
clearM(L.ls) => Y3 at 7
# An argument without a type, or of another one.
appendM(z, y) => Y1 at 8 z
clearM(z) => Y1 at 7 z
appendM(xs, 1) => Y2 at 12
removeM(m, 1) => Y2 at 11
removeM(m, z) => Y1 at 11 z
# Another number of arguments.
appendM(xs) => Y4 at 0
removeM(m, 'a', z) => Y4 at 0
clearM() => Y4 at 0

# a value need not be used
length(s) => (evaluate (length v5))
size(xs) => (evaluate (size v6))
has(m, s) => (evaluate (has v8 v5))
abs(i) => (evaluate (abs-int32 v1))
min(i, 1) => (evaluate (min v1 1))
max('a', s) => (evaluate (max 'a' v5))
substring(s, 0, i) => (evaluate (substring v5 0 v1))
# Refused as it is in an expression.
size(z) => Y1 at 5 z
size(i) => Y4 at 0
length(1) => Y2 at 7
min(1, 1l) => Y2 at 7
size() => Y4 at 0
size(clearM(xs)) => Y2 at 5

# a function need not have a result
# With a result and without.
inc(1) => (f0 1)
pad(s, now()) => (f1 v5 (f3))
sum([]) => (f2 (list))
log('a') => (f5 'a')
stop() => (f6)
# Refused as in an expression.
nope(z) => Y1 at 0 nope
inc() => Y4 at 0
stop(z) => Y4 at 0
inc(1l) => Y2 at 4
log(stop()) => Y2 at 4
pad(z, y) => Y1 at 4 z

# no other expression is a statement
i => Y4 at 0
z => Y4 at 0
1 => Y4 at 0
(stop()) => Y4 at 0
i + 1 => Y4 at 0
inc(z) + 1 => Y4 at 0
b ? stop() : stop() => Y4 at 0
"#;

pub(crate) const HIDDEN: &str = r#"
# a place is what its name means
L = 1 => (put v1 1)
L += L => (put v1 (+int32 v1 v1))
L.low = 1l => Y2 at 0
R = R => Y3 at 0
"#;

pub(crate) const IN_COMPOSITE: &str = r#"
# a parameter is no place
# `$` parameters on the right side and in places.
i = $n => (put v1 5)
i += $n => (put v1 (+int32 v1 5))
xs[$n] = 1l => (put (of v6 [5]) 1)
s = $n => Y2 at 4
s = $missing => C1 at 710
# None is a place.
$n = 1 => Y4 at 0
$xs[0] = 1 => Y4 at 0

# a function may have no types
odd(1) => Y1 at 761 T
odd(z) => Y1 at 761 T
even() => Y5 at 783 float64
log($s) => (f5 'a')
inc(1) => (f0 1)
nope() => Y1 at 0 nope
"#;

pub(crate) const MARKED: &str = r#"
# the marker is no statement
currentPunct() => Y4 at 0
currentPunct(1) => Y4 at 0
i = currentPunct() => Y4 at 4
appendM(g[0], currentPunct() == Sys.WindowMarker ? 1 : 2) => (append (of v7 [0]) (? is-window 1 2))
"#;
