//! Names and calls, and which refusal comes first.

pub(crate) const ROWS: &str = r#"
# a variable is the last of its name
# Variables.
i => int32 | v1
n => int64 | v2
u => uint8 | v3
b => boolean | v4
s => rstring | v5
xs => list<int64> | v6
g => list<list<int32>> | v7
m => map<rstring, int64> | v8
k => map<int32, list<rstring>> | v9
t => tuple<int64 a, tuple<rstring b, boolean c> d> | v10
(i) => int32 | v1
((t)) => tuple<int64 a, tuple<rstring b, boolean c> d> | v10
# The last one of the name is meant.
x => list<rstring> | v11
(x) => list<rstring> | v11
x[0] => rstring | (of v11 [0])
# A variable comes before an attribute.
qty => int32 | v14
qty + 1 => int32 | (+int32 v14 1)
(qty) -> int32 => int32 | v14
# Another type is wanted.
i -> int32 => int32 | v1
t -> tuple<int64 a, tuple<rstring b, boolean c> d> => tuple<int64 a, tuple<rstring b, boolean c> d> | v10
i -> int64 => Y2 at 0
i -> rstring => Y2 at 0
(i) -> int64 => Y2 at 1
xs -> list<int32> => Y2 at 0
t -> tuple<rstring b, boolean c> => Y2 at 0
m -> map<int32, list<rstring>> => Y2 at 0

# an attribute is of one port
# Attributes of one port.
price => int64 | a0.1
ls => list<int32> | a0.3
rank => uint8 | a1.1
d => tuple<rstring b, boolean c> | a1.2
(rank) => uint8 | a1.1
price -> int64 => int64 | a0.1
price -> int32 => Y2 at 0
# An attribute of two ports.
key => Y1 at 0 key
(key) => Y1 at 1 key
key -> rstring => Y1 at 0 key
# Attributes by their port.
L.key => rstring | a0.0
R.key => rstring | a1.0
L.price => int64 | a0.1
L.qty => int64 | a0.2
R.rank => uint8 | a1.1
R.d => tuple<rstring b, boolean c> | a1.2
(L).price => int64 | a0.1
(R.key) => rstring | a1.0
L.rank => Y1 at 2 rank
R.price => Y1 at 2 price
L.L => Y1 at 2 L
(L).z => Y1 at 4 z
L.qty -> int32 => Y2 at 0
L.price.a => Y2 at 0
# The tuple of a port.
L => tuple<rstring key, int64 price, int64 qty, list<int32> ls> | p0
R => tuple<rstring key, uint8 rank, tuple<rstring b, boolean c> d> | p1
(R) => tuple<rstring key, uint8 rank, tuple<rstring b, boolean c> d> | p1
L -> tuple<rstring b, boolean c> => Y2 at 0
L[0] => Y2 at 0

# a name may have no meaning
# Names of nothing.
z => Y1 at 0 z
(z) => Y1 at 1 z
z -> int32 => Y1 at 0 z
z.a => Y1 at 0 z
z[0] => Y1 at 0 z
X => Y1 at 0 X
_i => Y1 at 0 _i
# Names of calls and of markers.
inc => Y1 at 0 inc
length => Y1 at 0 length
currentPunct => Y1 at 0 currentPunct
Sys => Y1 at 0 Sys
Sys.WindowMarker => Y1 at 0 Sys
# Parameters of composites.
$x => Y1 at 0 x
$i => Y1 at 0 i
$if => Y1 at 0 if
$x -> int32 => Y1 at 0 x
($x) => Y1 at 1 x
$x.a => Y1 at 0 x
1 + $y => Y1 at 4 y
inc($x) => Y1 at 4 x
[$x] => Y1 at 1 x

# a function takes its parameters
# Arguments of the parameters' types.
inc(1) => int32 | (f0 1)
inc(inc(i)) => int32 | (f0 (f0 v1))
pad(s, n) => rstring | (f1 v5 v2)
now() => int64 | (f3)
now() + n => int64 | (+int64 (f3) v2)
inc(b ? 1 : 2) => int32 | (f0 (? v4 1 2))
# An argument's place wants its parameter's type.
sum([]) => int64 | (f2 (list))
sum(([n, 1l])) => int64 | (f2 (list v2 1))
swap({d = {c = b, b = s}, a = 1l}) => tuple<rstring b, boolean c> | (f4 (tuple 1=(tuple 1=v4 0=v5) 0=1))
# Arguments of other types.
inc(1l) => Y2 at 4
inc((n)) => Y2 at 5
inc(b) => Y2 at 4
pad('a', 1) => Y2 at 9
pad(1, 1l) => Y2 at 4
sum([1]) => Y2 at 5
sum({}) => Y2 at 4
swap(t.d) => Y2 at 5
log(1) => Y2 at 4
inc(z) => Y1 at 4 z
# Another number of arguments.
inc() => Y4 at 0
inc(1, 2) => Y4 at 0
inc(z, 1) => Y4 at 0
now(1) => Y4 at 0
stop(1) => Y4 at 0
inc(pad(s)) => Y4 at 4
# Functions without a result.
log('a') => Y2 at 0
stop() => Y2 at 0
inc(stop()) => Y2 at 4
b ? log('a') : 1 => Y2 at 4
# Names of no function.
nope() => Y1 at 0 nope
nope(z) => Y1 at 0 nope
s(1) => Y1 at 0 s
L() => Y1 at 0 L
Sum(n) => Y1 at 0 Sum
Count() => Y1 at 0 Count
# Another type is wanted of the result.
inc(1) -> int32 => int32 | (f0 1)
inc(1) -> int64 => Y2 at 0
inc(i) + now() => Y2 at 9

# length and size are int32
# `length`
length(s) => int32 | (length v5)
length('ab') => int32 | (length 'ab')
length(L.key + s) => int32 | (length (join a0.0 v5))
length(1) => Y2 at 7
length((1)) => Y2 at 8
length(xs) => Y2 at 7
length([]) => Y2 at 7
length(z) => Y1 at 7 z
length() => Y4 at 0
length(s, s) => Y4 at 0
length(s) -> int64 => Y2 at 0
# `size`
size(xs) => int32 | (size v6)
size(g) => int32 | (size v7)
size(m) => int32 | (size v8)
size((k)) => int32 | (size v9)
size(k[0]) => int32 | (size (of v9 {0}))
size([1]) => int32 | (size (list 1))
size({1 : 2}) => int32 | (size (map 1:2))
size(s) => Y4 at 0
size(i) => Y4 at 0
size(b) => Y4 at 0
size(t) => Y4 at 0
size(L) => Y4 at 0
size([]) => Y2 at 5
size({}) => Y2 at 5
size(z) => Y1 at 5 z
size() => Y4 at 0
size(xs, 1) => Y4 at 0
size(xs) -> int64 => Y2 at 0

# has takes a map and its key
# `has`
has(m, 'a') => boolean | (has v8 'a')
has(k, i) => boolean | (has v9 v1)
has({1 : 2}, 1) => boolean | (has (map 1:2) 1)
has({[1] : 2}, []) => boolean | (has (map (list 1):2) (list))
has(m, 1) => Y2 at 7
has(m, (1)) => Y2 at 8
has(k, n) => Y2 at 7
has(m, z) => Y1 at 7 z
has(xs, 1l) => Y4 at 0
has(s, 'a') => Y4 at 0
has(t, 'a') => Y4 at 0
has(xs, z) => Y4 at 0
has({}, 1) => Y2 at 4
has(z, y) => Y1 at 4 z
has(m) => Y4 at 0
has(m, s, s) => Y4 at 0
has() => Y4 at 0
has(m, s) -> int32 => Y2 at 0

# abs min and max have their arguments type
# `abs`
abs(i) => int32 | (abs-int32 v1)
abs(-n) => int64 | (abs-int64 (unary -int64 v2))
abs(u) => uint8 | (abs-uint8 v3)
abs(s) => Y4 at 0
abs(b) => Y4 at 0
abs(xs) => Y4 at 0
abs(t) => Y4 at 0
abs([]) => Y2 at 4
abs(z) => Y1 at 4 z
abs() => Y4 at 0
abs(1, 2) => Y4 at 0
abs(i) -> int64 => Y2 at 0
# `min`
min(i, 1) => int32 | (min v1 1)
min(t.a, n) => int64 | (min (of v10 .0) v2)
min(s, 'a') => rstring | (min v5 'a')
min(i, n) => Y2 at 7
min(i, (n)) => Y2 at 8
min(s, 1) => Y2 at 7
min(b, b) => Y4 at 0
min(t, z) => Y4 at 0
min(1, z) => Y1 at 7 z
min(1) => Y4 at 0
# `max`
max(u, 1ub) => uint8 | (max v3 1)
max('a', s) => rstring | (max 'a' v5)
max(min(1, 2), i) => int32 | (max (min 1 2) v1)
max('a', 1) => Y2 at 9
max(u, 1) => Y2 at 7
max(xs, xs) => Y4 at 0
max(m, m) => Y4 at 0
max([], xs) => Y2 at 4
max(z, y) => Y1 at 4 z
max(1, 2, 3) => Y4 at 0
max(i, 1) -> int64 => Y2 at 0

# substring takes a text and two int32
# `substring`
substring(s, 0, 1) => rstring | (substring v5 0 1)
substring('ab', i, inc(1)) => rstring | (substring 'ab' v1 (f0 1))
substring(s + s, 0, size(xs)) => rstring | (substring (join v5 v5) 0 (size v6))
substring(1, 0, 1) => Y2 at 10
substring(xs, 0, 1) => Y2 at 10
substring(s, 0l, 1) => Y2 at 13
substring(s, u, 1) => Y2 at 13
substring(s, 0, n) => Y2 at 16
substring(s, 0, (1l)) => Y2 at 17
substring(z, y, 1) => Y1 at 10 z
substring(s, 0) => Y4 at 0
substring(s, 0, 1, 2) => Y4 at 0
substring() => Y4 at 0
substring(s, 0, 1) -> int32 => Y2 at 0

# the first refusal counts
# From left to right.
z + y => Y1 at 0 z
z == currentPunct() => Y1 at 0 z
[1, 'a', z] => Y2 at 4
[z, y] => Y1 at 1 z
{z : y} => Y1 at 1 z
{1 : z, 'a' : 2} => Y1 at 5 z
{1 : 2, z : y} => Y1 at 8 z
{a = z, b = y} => Y1 at 5 z
pad(z, y) => Y1 at 4 z
pad(1, z) => Y2 at 4
substring(s, 'a', z) => Y2 at 13
inc(z) + y => Y1 at 4 z
z in y => Y1 at 0 z
z ? y : x => Y1 at 0 z
b ? z : y => Y1 at 4 z
i ? z : y => Y2 at 0
xs[z] + y => Y1 at 3 z
# The inner one before the outer one.
(z + 1) * 'a' => Y1 at 1 z
i + (b + 1) => Y2 at 5
-(!i) => Y2 at 3
b ? 1 : 'a' + z => Y1 at 14 z
'a' + z -> int32 => Y1 at 6 z
1 + 2l -> rstring => Y2 at 4
i < n == z => Y2 at 4
m[1].b => Y2 at 2
xs[z].a => Y1 at 3 z
inc(inc()) => Y4 at 4
size(abs(s)) => Y4 at 5
xs == log('a') => Y2 at 6
i in xs + z => Y2 at 5
# The left operand before the right one.
b + z => Y2 at 0
s - z => Y2 at 0
i && z => Y2 at 0
t < z => Y2 at 0
!i && z => Y2 at 1
# A base before its steps, and they in turn.
z[y] => Y1 at 0 z
i[z] => Y2 at 0
t.z[y] => Y1 at 2 z
m['a'].b[z] => Y2 at 0
k[z][y] => Y1 at 2 z
# A number of arguments before them.
pad(z) => Y4 at 0
length(z, y) => Y4 at 0
appendM(z) => Y4 at 0
# The type of a first argument before the others.
size(s) + z => Y4 at 0
min(b, z) => Y4 at 0
removeM(xs, z) => Y4 at 0
# A literal's form before its parts.
[z] -> rstring => Y2 at 0
{z : y} -> list<int64> => Y2 at 0
{b = z, c = y, e = 1} -> tuple<rstring b, boolean c> => Y2 at 0

# a place is a byte of the text
# Blanks and comments count.
 z => Y1 at 1 z
␊␉z => Y1 at 2 z
/* i */ z => Y1 at 8 z
i // n␊ + n => Y2 at 10
inc( n ) => Y2 at 5
t . z => Y1 at 4 z
 i␊+ 1  => int32 | (+int32 v1 1)
# Each byte of a text counts.
'é' + 1 => Y2 at 7
'\n' + 1 => Y2 at 7
# Of several tokens the first one's place.
s + m[s] => Y2 at 4
s + 1l * n => Y2 at 4
s + (n + n) => Y2 at 5
i + t.a => Y2 at 4
i + -n => Y2 at 4
i + (int8) i => Y2 at 4
i + {a = 1} => Y2 at 4
i + now() => Y2 at 4

# no marker is asked for where none came
# No marker has come.
currentPunct() == Sys.WindowMarker => Y4 at 0
currentPunct() != Sys.FinalMarker => Y4 at 0
(currentPunct()) == Sys.WindowMarker => Y4 at 1
b && currentPunct() != Sys.FinalMarker => Y4 at 5
currentPunct() => Y4 at 0
currentPunct(1) => Y4 at 0
"#;
