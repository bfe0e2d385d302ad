//! Literals, names, what is taken of values, calls, and the order of evaluation.

pub(crate) const ROWS: &str = r#"
# a number is what it says
0 => 0
007 => 7
127b => 127
32767h => 32767
2147483647 => 2147483647
9223372036854775807l => 9223372036854775807
255ub => 255
65535uh => 65535
4294967295u => 4294967295
18446744073709551615ul => 18446744073709551615
true => true
false => false
(5) => 5

# elements are in their order
[1] => [1]
[1, 2, 3] => [1, 2, 3]
[3, 1, 3] => [3, 1, 3]
['a', s, s + 'a'] => ['a', 'spl', 'spla']
[yes, no, 1 < 2] => [true, false, true]
[1 + 1, xs[0], -1] => [2, 10, -1]
[xs, none, [7]] => [[10, 20, 30], [], [7]]
[[[1]]] => [[[1]]]
[xs, []] => [[10, 20, 30], []]
no ? xs : [] => []
[m, {}] => [{'a': 1, 'b': 2}, {}]
[t.d, {c = no, b = 'o'}] => [<'in', true>, <'o', false>]

# pairs are by ascending key
{1 : 'a'} => {1: 'a'}
# By ascending key.
{1 : 'a', 2 : 'b'} => {1: 'a', 2: 'b'}
{2 : 'b', 1 : 'a'} => {1: 'a', 2: 'b'}
{3 : 0, 1 : 0, 2 : 0} => {1: 0, 2: 0, 3: 0}
{1 : 1, -1 : 2, 0 : 3} => {-1: 2, 0: 3, 1: 1}
{127b : 1, least8 : 2} => {-128: 2, 127: 1}
{9223372036854775807l : 1, least64 : 2} => {-9223372036854775808: 2, 9223372036854775807: 1}
{most64 : 1, 0ul : 2} => {0: 2, 18446744073709551615: 1}
{'b' : 1, 'a' : 2, 'B' : 3} => {'B': 3, 'a': 2, 'b': 1}
{'ab' : 1, 'b' : 2, 'a' : 3} => {'a': 3, 'ab': 1, 'b': 2}
{true : 1, false : 0} => {false: 0, true: 1}
{[2] : 1, [1, 5] : 2} => {[1, 5]: 2, [2]: 1}
{[1, 5] : 2, [1] : 1} => {[1]: 1, [1, 5]: 2}
{{a = 2, b = 1} : 1, {a = 1, b = 9} : 2} => {<1, 9>: 2, <2, 1>: 1}
# Of pairs with one key the last counts.
{1 : 'a', 1 : 'b'} => {1: 'b'}
{1 : 'a', 2 : 'b', 1 : 'c'} => {1: 'c', 2: 'b'}
{1 : 'a', 1 : 'b', 1 : 'c'} => {1: 'c'}
{2 : 'a', 1 : 'b', 2 : 'c', 1 : 'd'} => {1: 'd', 2: 'c'}
{1 : 'a', 2 - 1 : 'b'} => {1: 'b'}
{s : 1, 'spl' : 2} => {'spl': 2}
# Of any values.
{1 : xs, 2 : []} => {1: [10, 20, 30], 2: []}
{1 : {2 : {3 : 4}}} => {1: {2: {3: 4}}}
{1 : {a = 1, b = s}} => {1: <1, 'spl'>}
no ? m : {} => {}
no ? m : {'z' : 1l, 'y' : 2l} => {'y': 2, 'z': 1}

# fields are in the order of the type
# In their own order, where no type is wanted.
{a = 1, b = 'x'} => <1, 'x'>
{b = 'x', a = 1} => <'x', 1>
{a = 1} => <1>
{a = xs, b = {c = m}} => <[10, 20, 30], <{'a': 1, 'b': 2}>>
{a = 1 + 1, b = s + s} => <2, 'splspl'>
# In the order of the type that is wanted.
no ? t.d : {b = 'o', c = no} => <'o', false>
no ? t.d : {c = no, b = 'o'} => <'o', false>
no ? t : {d = {c = no, b = 'o'}, a = 9l} => <9, <'o', false>>
[{a = 1, b = 2, c = 3}, {c = 6, a = 4, b = 5}] => [<1, 2, 3>, <4, 5, 6>]
[{a = 1, b = 2, c = 3}, {b = 5, c = 6, a = 4}][1].c => 6
{1 : t.d, 2 : {c = no, b = 'o'}}[2] => <'o', false>
inner({d = {c = no, b = 'o'}, a = 1l}) => <'o', false>
{{b = 'o', c = no} : 1, {c = yes, b = 'a'} : 2} => {<'a', true>: 2, <'o', false>: 1}

# a name stands for its value
# Variables.
zero => 0
least8 => -128
least16 => -32768
least32 => -2147483648
least64 => -9223372036854775808
most8 => 255
most16 => 65535
most32 => 4294967295
most64 => 18446744073709551615
yes => true
no => false
blank => ''
xs => [10, 20, 30]
none => []
g => [[1, 2], [], [3]]
m => {'a': 1, 'b': 2}
bare => {}
k => {1: ['p', 'q'], 2: []}
ms => [{'a': 1}, {}]
t => <5, <'in', true>>
((t)) => <5, <'in', true>>
# Attributes.
price => 20
ls => [1, 2]
rank => 9
d => <'deep', false>
d.b => 'deep'
L.key => 'IBM'
R.key => 'rank'
L.price => 20
L.ls => [1, 2]
(R).rank => 9
R.d.c => false
# The tuple of a port.
L => <'IBM', 20, 300, [1, 2], 'left'>
R => <'rank', 9, <'deep', false>>
(R) => <'rank', 9, <'deep', false>>
[R][0].rank => 9
{a = R}.a.d.b => 'deep'
R == {key = 'rank', rank = 9ub, d = d} => true

# a name hides another
# A local variable comes before one of the state.
x => 'local'
x + x => 'locallocal'
# A variable comes before an attribute.
qty => 7
L.qty => 300
s => 'spl'
L.s => 'left'
# Calls have names of their own.
now => 3
now() => 7
size => 4
size(xs) => 3
# A parameter hides what has its name outside.
turned(5, 3) => -2
at([1, 2, 3], 2) => 3

# members are by name
t => <5, <'in', true>>
t.a => 5
t.d => <'in', true>
t.d.b => 'in'
t.d.c => true
(t.d).c => true
R.d.b => 'deep'
{a = 1, b = 2}.a => 1
{a = 1, b = 2}.b => 2
{b = 1, a = 2}.b => 1
{a = {b = {c = 7}}}.a.b.c => 7
{a = 1, b = xs}.b => [10, 20, 30]
(yes ? t : t).d.b => 'in'
inner(t).b => 'in'
t.a + t.a => 10

# elements are from 0 to the length
# Of variables.
xs[0] => 10
xs[1] => 20
xs[2] => 30
xs[3] => Index
xs[-1] => Index
xs[size(xs) - 1] => 30
xs[size(xs)] => Index
none[0] => Index
none[-1] => Index
L.ls[1] => 2
L.ls[2] => Index
# Of nested ones.
g[0] => [1, 2]
g[0][1] => 2
g[0][2] => Index
g[1] => []
g[1][0] => Index
g[2][0] => 3
g[3][0] => Index
g[0][-1] => Index
# Of literals and of what calls give.
[1, 2, 3][0] => 1
[1, 2, 3][2] => 3
[1, 2, 3][3] => Index
[1, 2, 3][-1] => Index
[[1], [2, 3]][1][0] => 2
[xs, none][0][2] => 30
[xs, none][1][0] => Index
[t][0].d.b => 'in'
[t][1].d.b => Index
{a = xs}.a[1] => 20
same(xs)[1] => 20
same(xs)[3] => Index
(no ? none : xs)[0] => 10
# At each integer type, and at bounds.
xs[1b] => 20
xs[1h] => 20
xs[1l] => 20
xs[1ub] => 20
xs[1uh] => 20
xs[1u] => 20
xs[1ul] => 20
xs[-1b] => Index
xs[least8] => Index
xs[127b] => Index
xs[least16] => Index
xs[32767h] => Index
xs[least32] => Index
xs[2147483647] => Index
xs[least64] => Index
xs[255ub] => Index
xs[65535uh] => Index
xs[4294967295u] => Index
xs[4294967296l] => Index
xs[4294967297ul] => Index
xs[9223372036854775807l] => Index
xs[18446744073709551615ul] => Index
xs[255ub + 2ub] => 20
# Indexes of other values.
xs[xs[0] - 9] => 20
xs[g[0][1]] => 30
xs[xs[0]] => Index

# values are at keys
# Of variables.
m['a'] => 1
m['b'] => 2
m['c'] => NoKey
m[''] => NoKey
m['A'] => NoKey
m['aa'] => NoKey
m[s] => NoKey
bare['a'] => NoKey
# Of nested ones.
k[1] => ['p', 'q']
k[1][1] => 'q'
k[1][2] => Index
k[2] => []
k[2][0] => Index
k[3][0] => NoKey
k[-1] => NoKey
ms[0]['a'] => 1
ms[1]['a'] => NoKey
ms[2]['a'] => Index
# Of literals.
{1 : 'a'}[1] => 'a'
{1 : 'a'}[2] => NoKey
{1 : 'a', 1 : 'b'}[1] => 'b'
{2 : 'b', 3 : 'c', 1 : 'a'}[1] => 'a'
{2 : 'b', 3 : 'c', 1 : 'a'}[2] => 'b'
{2 : 'b', 3 : 'c', 1 : 'a'}[3] => 'c'
{true : 1}[yes] => 1
{true : 1}[no] => NoKey
{least64 : 'a'}[least64] => 'a'
{least64 : 'a'}[9223372036854775807l] => NoKey
{most64 : 'a'}[most64] => 'a'
{most64 : 'a'}[0ul] => NoKey
{[1, 2] : 'a'}[g[0]] => 'a'
{[1, 2] : 'a'}[[]] => NoKey
{t.d : 1}[{c = yes, b = 'in'}] => 1
{t.d : 1}[R.d] => NoKey
{1 : {a = xs}}[1].a[2] => 30
[m][0]['b'] => 2
(yes ? m : bare)['a'] => 1
m[k[1][0]] => NoKey
m[no ? 'c' : 'b'] => 2
# The value stays as it is.
{1 : {2 : 'a'}, 3 : {}}[1][2] => 'a'
{1 : {2 : 'a'}, 3 : {}}[3][2] => NoKey

# length and size count
# `length`, in bytes.
length('') => 0
length(blank) => 0
length('a') => 1
length(s) => 3
length(s + s) => 6
length('é') => 2
length('\n\\') => 2
length(L.key) => 3
length((rstring) 120) => 3
# `size`
size(none) => 0
size(xs) => 3
size([1]) => 1
size([none, none]) => 2
size(g[1]) => 0
size(bare) => 0
size(m) => 2
size({1 : 'a'}) => 1
size({1 : 'a', 1 : 'b'}) => 1
size(k[1]) => 2
size(k[9]) => NoKey
length(k[9][0]) => NoKey
size(g[9]) => Index

# has asks for a key
has(m, 'a') => true
has(m, 'b') => true
has(m, 'c') => false
has(m, '') => false
has(bare, 'a') => false
has(k, 2) => true
has(k, 0) => false
has({1 : 2}, 2) => false
has({1 : 2}, 1) => true
has({[1] : 2}, []) => false
has(ms[1], 'a') => false
has(ms[9], 'a') => Index
has(m, k[9][0]) => NoKey
has({least64 : 1}, least64) => true
has({most64 : 1}, 0ul) => false

# abs wraps at the least number
abs(0) => 0
abs(5) => 5
abs(-5) => 5
abs(127b) => 127
abs(-127b) => 127
abs(least8) => -128
abs(-32767h) => 32767
abs(least16) => -32768
abs(-2147483647) => 2147483647
abs(least32) => -2147483648
abs(9223372036854775807l) => 9223372036854775807
abs(-9223372036854775807l) => 9223372036854775807
abs(least64) => -9223372036854775808
abs(0ub) => 0
abs(255ub) => 255
abs(65535uh) => 65535
abs(4294967295u) => 4294967295
abs(18446744073709551615ul) => 18446744073709551615
abs(-1ub) => 255
abs(xs[9]) => Index
abs(1 / zero) => DivZero

# min and max are by number and by bytes
# Of integers.
min(1, 2) => 1
min(2, 1) => 1
min(2, 2) => 2
min(-1, 1) => -1
min(-1, -2) => -2
max(1, 2) => 2
max(2, 1) => 2
max(-1, -2) => -1
min(least8, 127b) => -128
max(least8, 127b) => 127
min(32767h, least16) => -32768
max(32767h, least16) => 32767
min(least32, 2147483647) => -2147483648
max(least32, 2147483647) => 2147483647
min(9223372036854775807l, least64) => -9223372036854775808
max(9223372036854775807l, least64) => 9223372036854775807
min(0ul, 18446744073709551615ul) => 0
max(0ul, 18446744073709551615ul) => 18446744073709551615
max(128ub, 127ub) => 128
min(255ub, 0ub) => 0
max(255ub, 0ub) => 255
min(65535uh, 0uh) => 0
max(65535uh, 0uh) => 65535
min(4294967295u, 0u) => 0
max(4294967295u, 0u) => 4294967295
max(min(3, 5), 4) => 4
# Of texts, by bytes.
min('a', 'b') => 'a'
min('a', 'Z') => 'Z'
max('a', 'Z') => 'a'
min('ab', 'a') => 'a'
max('ab', 'a') => 'ab'
min('', 'a') => ''
max('', 'a') => 'a'
min('', '') => ''
max('10', '9') => '9'
min('é', 'z') => 'z'
max(s, blank) => 'spl'

# substring is within the text
substring(s, 0, 3) => 'spl'
substring(s, 0, 0) => ''
substring(s, 0, 1) => 's'
substring(s, 1, 1) => 'p'
substring(s, 1, 2) => 'pl'
substring(s, 2, 1) => 'l'
# At most so many bytes as there are.
substring(s, 0, 4) => 'spl'
substring(s, 1, 9) => 'pl'
substring(s, 1, 2147483647) => 'pl'
substring(s, 3, 5) => ''
# From the length on there is nothing, and past it a fault.
substring(s, 3, 0) => ''
substring(s, 4, 0) => Index
substring(s, 4, 1) => Index
substring(s, 2147483647, 1) => Index
substring(s, -1, 1) => Index
substring(s, least32, 1) => Index
substring(s, 0, -1) => Index
substring(s, 3, -1) => Index
substring(s, 4, -1) => Index
substring(s, 0, least32) => Index
substring(blank, 0, 0) => ''
substring(blank, 0, 1) => ''
substring(blank, 1, 0) => Index
# Bytes may be parts of characters.
substring('é', 1, 1) => '©'
substring('aé', 0, 2) => 'aÃ'
substring(s + s, 2, 2) => 'ls'
substring(substring(s, 1, 2), 1, 1) => 'l'
length(substring(s, 1, 9)) => 2

# a call gives the value of the body
inc(1) => 2
inc(-1) => 0
inc(2147483647) => -2147483648
inc(xs[0]) => 11
now() => 7
now() + 1l => 8
# Parameters by place.
less(5, 3) => 2
less(3, 5) => -2
turned(5, 3) => -2
at(xs, 1) => 20
at([7, 8], 1) => 8
pick(yes, 1) => 2
pick(no, 1) => 1
made('ab', yes) => <'abab', false>
made('', no) => <'', true>
same(xs) => [10, 20, 30]
same([]) => []
size(same(none)) => 0
inner(t) => <'in', true>
inner(t) == t.d => true
# Functions that call functions, before them and behind them.
twice(1) => 3
thrice(1) => 4
early(5) => 8
# Calls in arguments.
inc(inc(1)) => 3
inc(twice(inc(1))) => 5
less(inc(5), inc(1)) => 4
less(less(9, 1), less(3, 1)) => 6
at(same(xs), inc(0)) => 20
abs(inc(-5)) => 4
[inc(1), inc(2)] => [2, 3]
{inc(1) : inc(2)} => {2: 3}
xs[inc(0)] => 20
# Faults inside.
per(20l) => 5
per(0l) => DivZero
per(now() - 7l) => DivZero
per(price) => 5
at(xs, 3) => Index
at([], 0) => Index
at(xs, -1) => Index
1 + at(xs, 3) => Index
inc(at(xs, 3)) => Index
# A function sees its parameters alone.
turned(x == 'local' ? 1 : 2, 9) => 8
pick(no, size(none)) => 0

# a call takes a turn
# What calls no function takes no turn.
1 @ 0 => 1 | 0
1 + 1 @ 3 => 2 | 3
size(xs) @ 0 => 3 | 0
substring(s, 0, 1) @ 0 => 's' | 0
[xs[0], xs[1]] @ 1 => [10, 20] | 1
1 / zero @ 0 => DivZero
# Each call takes one.
inc(1) @ 1 => 2 | 0
inc(1) @ 2 => 2 | 1
inc(1) @ 1000000 => 2 | 999999
inc(1) @ 4294967295 => 2 | 4294967294
inc(1) @ 0 => Turns
now() @ 1 => 7 | 0
now() @ 0 => Turns
inc(1) + inc(2) @ 2 => 5 | 0
inc(1) + inc(2) @ 1 => Turns
inc(1) + inc(2) @ 0 => Turns
[inc(1), inc(2)] @ 3 => [2, 3] | 1
[inc(1), inc(2)] @ 1 => Turns
{inc(1) : inc(2)} @ 2 => {2: 3} | 0
{inc(1) : inc(2)} @ 1 => Turns
{a = inc(1), b = inc(2)} @ 2 => <2, 3> | 0
{a = inc(1), b = inc(2)} @ 1 => Turns
min(inc(1), inc(2)) @ 2 => 2 | 0
min(inc(1), inc(2)) @ 1 => Turns
substring(s, inc(0), inc(0)) @ 2 => 'p' | 0
substring(s, inc(0), inc(0)) @ 1 => Turns
xs[inc(0)] @ 1 => 20 | 0
xs[inc(0)] @ 0 => Turns
k[inc(0)][inc(0)] @ 2 => 'q' | 0
k[inc(0)][inc(0)] @ 1 => Turns
inner(t).b @ 1 => 'in' | 0
inner(t).b @ 0 => Turns
-inc(1) @ 1 => -2 | 0
-inc(1) @ 0 => Turns
(int8) inc(127) @ 1 => -128 | 0
abs(inc(-5)) @ 1 => 4 | 0
inc(0) in xs @ 1 => false | 0
twice(1) in [inc(2)] @ 4 => true | 0
twice(1) in [inc(2)] @ 3 => Turns
# A call inside an argument, and one inside a body.
inc(inc(inc(1))) @ 3 => 4 | 0
inc(inc(inc(1))) @ 2 => Turns
twice(1) @ 3 => 3 | 0
twice(1) @ 2 => Turns
twice(1) @ 1 => Turns
thrice(1) @ 5 => 4 | 0
thrice(1) @ 4 => Turns
early(5) @ 2 => 8 | 0
early(5) @ 1 => Turns
twice(inc(1)) @ 4 => 4 | 0
twice(inc(1)) @ 3 => Turns
per(now()) @ 2 => 14 | 0
same(xs)[inc(0)] @ 2 => 20 | 0
twice(1) + twice(1) @ 6 => 6 | 0
twice(1) + twice(1) @ 5 => Turns

# what is not evaluated takes no turn
# What isn't evaluated takes no turn.
no && inc(1) == 2 @ 0 => false | 0
yes || inc(1) == 2 @ 0 => true | 0
yes && inc(1) == 2 @ 1 => true | 0
yes && inc(1) == 2 @ 0 => Turns
inc(1) == 3 && inc(2) == 3 @ 5 => false | 4
inc(1) == 2 && inc(2) == 4 && inc(3) == 4 @ 5 => false | 3
yes ? 1 : inc(1) @ 0 => 1 | 0
no ? 1 : inc(1) @ 1 => 2 | 0
no ? 1 : inc(1) @ 0 => Turns
inc(1) == 2 ? inc(2) : twice(2) @ 2 => 3 | 0
inc(1) == 3 ? inc(2) : twice(2) @ 4 => 4 | 0
pick(no, 1) @ 1 => 1 | 0
pick(yes, 1) @ 2 => 2 | 0
pick(yes, 1) @ 1 => Turns
g[9][inc(0)] @ 0 => Index
g[inc(0)][9] @ 0 => Turns
# A turn that is wanting is a fault among others.
inc(1) + 1 / zero @ 0 => Turns
inc(1) + 1 / zero @ 1 => DivZero
1 / zero + inc(1) @ 0 => DivZero
per(0l) @ 0 => Turns
per(0l) @ 1 => DivZero
# Arguments come before the call's turn.
inc(1 / zero) @ 0 => DivZero
inc(xs[9]) @ 0 => Index
less(inc(1), 1 / zero) @ 0 => Turns
less(inc(1), 1 / zero) @ 1 => DivZero
less(1 / zero, inc(1)) @ 0 => DivZero

# each call takes a turn, and that of a function which calls another takes two
now() @ 0 => Turns
now() @ 1 => 7 | 0
early(5) @ 1 => Turns
early(5) @ 2 => 8 | 0
early(5) @ 5 => 8 | 3

# operands are evaluated from left to right
1 / zero + xs[9] => DivZero
xs[9] + 1 / zero => Index
1l / 0l - m['z'] => DivZero
m['z'] - 1l / 0l => NoKey
1 / zero * xs[9] => DivZero
xs[9] * (1 / zero) => Index
xs[9] / zero => Index
xs[9] % zero => Index
1 / (xs[9] - xs[9]) => Index
1 / zero & xs[9] => DivZero
xs[9] & 1 / zero => Index
1 / zero < xs[9] => DivZero
xs[9] < 1 / zero => Index
1 / zero == xs[9] => DivZero
xs[9] == 1 / zero => Index
xs[9] != 1 / zero => Index
k[1][9] + k[9][1] => Index
k[9][1] + k[1][9] => NoKey
k[1][9] < k[9][1] => Index
1 / zero in [xs[9]] => DivZero
xs[9] in [1 / zero] => Index
1 / zero in g[9] => DivZero
xs[9] in {1 / zero : 1} => Index
k[9][1] in m => NoKey
# Operators group to the left, and the tighter one isn't evaluated first for that.
1 / zero + xs[9] * 2 => DivZero
xs[9] + 2 * (1 / zero) => Index
1 + xs[9] + 1 / zero => Index
1 + (xs[9] + 1 / zero) => Index
xs[9] == 1 && 1 / zero == 1 => Index
-(1 / zero) + xs[9] => DivZero
(rstring) xs[9] + (rstring) (1 / zero) => Index

# parts of literals are evaluated in the order of the text
# Elements.
[1 / zero, xs[9]] => DivZero
[xs[9], 1 / zero] => Index
[1, xs[9], 1 / zero] => Index
[[xs[9]], [1 / zero]] => Index
[1, 2, 1 / zero][9] => DivZero
# A key, its value, and then the next pair.
{1 / zero : xs[9]} => DivZero
{xs[9] : 1 / zero} => Index
{1 : 1 / zero, xs[9] : 2} => DivZero
{1 : xs[9], 1 / zero : 2} => Index
{1 : 2, xs[9] : 1 / zero} => Index
{1 : 2, 1 : xs[9]} => Index
{1 : xs[9], 1 : 2} => Index
# Fields in the order of the text, whatever that of the type is.
{a = 1 / zero, b = xs[9]} => DivZero
{a = xs[9], b = 1 / zero} => Index
{a = xs[9], b = 1}.b => Index
t == {a = 1l / 0l, d = {b = k[9][0], c = yes}} => DivZero
t == {d = {b = k[9][0], c = yes}, a = 1l / 0l} => NoKey
t.d == {b = k[9][0], c = xs[9] == 1} => NoKey
t.d == {c = xs[9] == 1, b = k[9][0]} => Index

# steps are taken in turn
# What comes first, an index, and the look-up, before the next index.
g[9][1 / zero] => Index
g[1 / zero][9] => DivZero
g[0][1 / zero] => DivZero
g[1][1 / zero] => DivZero
k[9][1 / zero] => NoKey
k[1 / zero][9] => DivZero
k[1][1 / zero] => DivZero
ms[9][k[9][0]] => Index
ms[0][k[9][0]] => NoKey
ms[0][k[1][9]] => Index
[1 / zero][xs[9]] => DivZero
[xs[9]][1 / zero] => Index
[1][1 / zero] => DivZero
{1 / zero : 1}[xs[9]] => DivZero
{1 : 1}[xs[9]] => Index
[{a = xs}][9].a[1 / zero] => Index
xs[xs[9] + 1 / zero] => Index
at(xs, 9) + xs[1 / zero] => Index

# arguments are evaluated from left to right
# Arguments.
less(1 / zero, xs[9]) => DivZero
less(xs[9], 1 / zero) => Index
less(1, xs[9]) + 1 / zero => Index
less(inc(1 / zero), xs[9]) => DivZero
less(at(xs, 9), 1 / zero) => Index
min(1 / zero, xs[9]) => DivZero
max(xs[9], 1 / zero) => Index
has({1 / zero : 1}, xs[9]) => DivZero
has({1 : xs[9]}, 1 / zero) => Index
substring(s, 1 / zero, xs[9]) => DivZero
substring(s, xs[9], 1 / zero) => Index
substring(k[9][0], 1 / zero, xs[9]) => NoKey
# A call's own fault comes behind those of its arguments.
substring(s, -1, 1 / zero) => DivZero
substring(s, -1, 1) + k[9][0] => Index
k[9][0] + substring(s, -1, 1) => NoKey
per(0l) + m['z'] => DivZero
m['z'] + per(0l) => NoKey
at(xs, 9) + 1 / zero => Index
at([1 / zero], 9) => DivZero
at([1 / zero], xs[9]) => DivZero
at(g[9], 1 / zero) => Index
# An argument is evaluated where its parameter isn't.
pick(no, 1 / zero) => DivZero
"#;
