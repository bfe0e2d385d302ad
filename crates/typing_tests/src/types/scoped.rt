//! Units that scopes are made of, and what is typed in some of them.

/// Variables by place: `i` is at 1, `xs` at 6 and `t` at 10, and of the two `x` the last counts, at 11. Both
/// ports have an attribute `key`, and a variable has the name `qty` too.
pub(crate) const UNIT: &str = r#"
int32 inc(int32 n) { return n; }
rstring pad(rstring s, int64 n) { return s; }
int64 sum(list<int64> xs) { return 0l; }
int64 now() { return 0l; }
tuple<rstring b, boolean c> swap(tuple<int64 a, tuple<rstring b, boolean c> d> t) { return t.d; }
void log(rstring s) {}
void stop() {}
void variables() {
    mutable list<int64> x = [];
    mutable int32 i = 0;
    mutable int64 n = 0l;
    uint8 u = 0ub;
    boolean b = false;
    mutable rstring s = '';
    mutable list<int64> xs = [];
    mutable list<list<int32>> g = [];
    mutable map<rstring, int64> m = {};
    mutable map<int32, list<rstring>> k = {};
    mutable tuple<int64 a, tuple<rstring b, boolean c> d> t = {a = 0l, d = {b = '', c = false}};
    list<rstring> x = [];
    list<int64> ys = [];
    map<rstring, int64> ms = {};
    mutable int32 qty = 0;
}
void ports() {
    tuple<rstring key, int64 price, int64 qty, list<int32> ls> L = {key = '', price = 0l, qty = 0l, ls = []};
    tuple<rstring key, uint8 rank, tuple<rstring b, boolean c> d> R = {key = '', rank = 0ub, d = {b = '', c = false}};
}
"#;

/// Variables and attributes have names that mean something else too: `L` and `R` are ports, `now` and
/// `size` calls.
pub(crate) const HIDING: &str = r#"
int32 inc(int32 n) { return n; }
rstring pad(rstring s, int64 n) { return s; }
int64 sum(list<int64> xs) { return 0l; }
int64 now() { return 0l; }
tuple<rstring b, boolean c> swap(tuple<int64 a, tuple<rstring b, boolean c> d> t) { return t.d; }
void log(rstring s) {}
void stop() {}
void variables() {
    mutable tuple<int32 WindowMarker> Sys = {WindowMarker = 0};
    mutable int32 L = 0;
    mutable int8 now = 0b;
    mutable int16 size = 0h;
}
void ports() {
    tuple<rstring key, int64 low> L = {key = '', low = 0l};
    tuple<rstring key, tuple<int64 rank> R> R = {key = '', R = {rank = 0l}};
}
"#;

/// A variable has the name before the dot of the markers.
pub(crate) const SYS: &str = r#"
int32 inc(int32 n) { return n; }
rstring pad(rstring s, int64 n) { return s; }
int64 sum(list<int64> xs) { return 0l; }
int64 now() { return 0l; }
tuple<rstring b, boolean c> swap(tuple<int64 a, tuple<rstring b, boolean c> d> t) { return t.d; }
void log(rstring s) {}
void stop() {}
void variables() {
    mutable int32 i = 0;
    tuple<int32 WindowMarker> Sys = {WindowMarker = 0};
}
"#;

/// `$` parameters and functions without types. Of the two `$n` the first counts, and so it does of the two
/// `odd`; another function is named `inc` too.
pub(crate) const COMPOSITE: &str = r#"
composite Main {
    param
        expression<int32> $n : 5;
        expression<rstring> $s : 'a';
        expression<list<int32>> $xs : [1, 2];
        expression<map<rstring, int64>> $m : {'a' : 1l, 'b' : 2l};
        expression<tuple<int64 a, tuple<rstring b, boolean c> d>> $t : {a = 1l, d = {b = 'in', c = true}};
        expression<int32> $element : [[1], [2, 3]][1][0];
        expression<list<rstring>> $at : {1 : ['p']}[1];
        expression<boolean> $member : {a = 1l, d = true}.d;
        expression<int32> $far : -(int32)~2b;
        expression<rstring> $first : size([1]) < 2 ? 'x' : 'y';
        expression<boolean> $if : true;
        expression<int32> $unknown : T;
        expression<int32> $missing;
        expression<boolean> $n : true;
}
T odd() {}
T inc() {}
float64 even() {}
float64 odd() {}
float64 size() {}
"#;

pub(crate) const HIDDEN: &str = r#"
# a name may hide others
# A variable comes before a port.
L => int32 | v1
L.low => Y2 at 0
L.key => Y2 at 0
low => int64 | a0.1
key => Y1 at 0 key
# An attribute comes before a port.
R => tuple<int64 rank> | a1.1
R -> tuple<int64 rank> => tuple<int64 rank> | a1.1
R.rank => int64 | (of a1.1 .0)
(R).rank => int64 | (of a1.1 .0)
R.key => Y1 at 2 key
R.R => Y1 at 2 R
# Calls have names of their own.
now => int8 | v2
now() => int64 | (f3)
size => int16 | v3
size([1]) => int32 | (size (list 1))
L(1) => Y1 at 0 L
# `Sys` is a name as others.
Sys => tuple<int32 WindowMarker> | v0
Sys.WindowMarker => int32 | (of v0 .0)
Sys.WindowMarker == 1 => boolean | (== (of v0 .0) 1)
Sys.FinalMarker => Y1 at 4 FinalMarker
currentPunct() == Sys.WindowMarker => Y4 at 0
"#;

pub(crate) const MARKED: &str = r#"
# a marker is asked for where one came
# The four forms.
currentPunct() == Sys.WindowMarker => boolean | is-window
currentPunct() == Sys.FinalMarker => boolean | is-final
currentPunct() != Sys.WindowMarker => boolean | not-window
currentPunct() != Sys.FinalMarker => boolean | not-final
currentPunct() == Sys.FinalMarker -> boolean => boolean | is-final
currentPunct() == Sys.FinalMarker -> int32 => Y2 at 0
# In parentheses.
(currentPunct()) == (Sys.WindowMarker) => boolean | is-window
((currentPunct())) != Sys.FinalMarker => boolean | not-final
currentPunct() == ((Sys.FinalMarker)) => boolean | is-final
(currentPunct() == Sys.WindowMarker) => boolean | is-window
(currentPunct() == Sys.WindowMarker) -> rstring => Y2 at 1
# In other expressions.
!(currentPunct() == Sys.FinalMarker) => boolean | (unary ! is-final)
b && currentPunct() == Sys.WindowMarker => boolean | (&& v4 is-window)
currentPunct() == Sys.WindowMarker ? 1 : 2 => int32 | (? is-window 1 2)
true == (currentPunct() == Sys.WindowMarker) => boolean | (== true is-window)
currentPunct() == Sys.WindowMarker == true => boolean | (== is-window true)
[currentPunct() != Sys.WindowMarker] => list<boolean> | (list not-window)

# a marker is asked for in no other form
# Other calls.
currentPunct() => Y4 at 0
(currentPunct()) => Y4 at 1
currentPunct() -> boolean => Y4 at 0
!currentPunct() => Y4 at 1
currentPunct().a => Y4 at 0
inc(currentPunct()) => Y4 at 4
size(currentPunct()) => Y4 at 5
currentPunct() in xs => Y4 at 0
currentPunct(1) == Sys.WindowMarker => Y4 at 0
currentPunct(z) == Sys.WindowMarker => Y4 at 0
# Other operators.
currentPunct() < Sys.WindowMarker => Y4 at 0
currentPunct() + Sys.FinalMarker => Y4 at 0
currentPunct() && Sys.FinalMarker => Y4 at 0
# Other right sides.
currentPunct() == 1 => Y4 at 0
currentPunct() == z => Y4 at 0
currentPunct() == Sys => Y4 at 0
currentPunct() == WindowMarker => Y4 at 0
currentPunct() == Sys.Window => Y4 at 0
currentPunct() == Sys.WindowMarker.a => Y4 at 0
currentPunct() == Sys.WindowMarker[0] => Y4 at 0
currentPunct() == t.WindowMarker => Y4 at 0
currentPunct() == (Sys).WindowMarker => Y4 at 0
currentPunct() == currentPunct() => Y4 at 0
(currentPunct()) == 1 => Y4 at 1
# The call on the right.
b == currentPunct() => Y4 at 5
Sys.WindowMarker == currentPunct() => Y1 at 0 Sys
true == currentPunct() == Sys.WindowMarker => Y4 at 8
# The markers alone.
Sys.WindowMarker => Y1 at 0 Sys
(Sys.FinalMarker) => Y1 at 1 Sys
1 == Sys.WindowMarker => Y1 at 5 Sys
Sys => Y1 at 0 Sys
currentPunct => Y1 at 0 currentPunct
# Other names.
i => int32 | v1
inc(i) => int32 | (f0 v1)
price => Y1 at 0 price
L => Y1 at 0 L
L.price => Y1 at 0 L
"#;

pub(crate) const NAMED: &str = r#"
# a variable may have the name of the markers
# The comparison comes first.
currentPunct() == Sys.WindowMarker => boolean | is-window
currentPunct() != Sys.FinalMarker => boolean | not-final
# Elsewhere the variable is meant.
Sys.WindowMarker => int32 | (of v1 .0)
Sys.WindowMarker == 1 => boolean | (== (of v1 .0) 1)
i == Sys.WindowMarker => boolean | (== v0 (of v1 .0))
Sys.FinalMarker => Y1 at 4 FinalMarker
Sys.WindowMarker == currentPunct() => Y4 at 20
currentPunct() < Sys.WindowMarker => Y4 at 0
currentPunct() == Sys => Y4 at 0
"#;

pub(crate) const IN_COMPOSITE: &str = r#"
# a parameter is what stands for it
# What stands for a parameter.
$n => int32 | 5
$s => rstring | 'a'
$if => boolean | true
$xs => list<int32> | (list 1 2)
$m => map<rstring, int64> | (map 'a':1 'b':2)
$t => tuple<int64 a, tuple<rstring b, boolean c> d> | (tuple 0=1 1=(tuple 0='in' 1=true))
$element => int32 | (of (list (list 1) (list 2 3)) [1] [0])
$at => list<rstring> | (of (map 1:(list 'p')) {1})
$member => boolean | (of (tuple 0=1 1=true) .1)
$far => int32 | (unary -int32 as-int32 ~int8 2)
$first => rstring | (? (< (size (list 1)) 2) 'x' 'y')
($n) => int32 | 5
# A variable of the name is another thing.
n => int64 | v2
s + $s => rstring | (join v5 'a')
# A part of something else.
$n + 1 => int32 | (+int32 5 1)
1 + $n => int32 | (+int32 1 5)
$xs[$n] => int32 | (of (list 1 2) [5])
$t.a => int64 | (of (tuple 0=1 1=(tuple 0='in' 1=true)) .0)
[$n, $n] => list<int32> | (list 5 5)
inc($n) => int32 | (f0 5)
$if ? $n : 2 => int32 | (? true 5 2)
# Another type is wanted.
$n -> int32 => int32 | 5
$s -> int32 => Y2 at 0
($s) -> int32 => Y2 at 1
inc($s) => Y2 at 4
$n + 1b => Y2 at 5
1b + $n => Y2 at 5
!$n => Y2 at 1
# A parameter that isn't there.
$z => Y1 at 0 z
$i => Y1 at 0 i
$n + $z => Y1 at 5 z
$z -> int32 => Y1 at 0 z
# One that stands for a refusal.
$unknown => Y1 at 681 T
$unknown -> int32 => Y1 at 681 T
$missing => C1 at 710
1 + $missing => C1 at 710
z + $missing => Y1 at 0 z
inc($unknown) => Y1 at 681 T

# a function may have no types
# The types of the function are refused.
odd(1) => Y1 at 761 T
odd() => Y1 at 761 T
odd(z) => Y1 at 761 T
odd(1) -> int32 => Y1 at 761 T
1 + even() => Y5 at 783 float64
inc(even(1)) => Y5 at 783 float64
# One that has types comes first, as does a call that is built in.
inc(1) => int32 | (f0 1)
inc(1l) => Y2 at 4
size([1]) => int32 | (size (list 1))
# Names of no function.
nope() => Y1 at 0 nope
odd => Y1 at 0 odd
"#;

pub(crate) const WRITTEN: &str = r#"
int8 => int8
int16 => int16
int32 => int32
int64 => int64
uint8 => uint8
uint16 => uint16
uint32 => uint32
uint64 => uint64
boolean => boolean
rstring => rstring
list<int32> => list<int32>
list<int64> => list<int64>
list<rstring> => list<rstring>
list<list<int32>> => list<list<int32>>
map<rstring, int64> => map<rstring, int64>
map<int32, list<rstring>> => map<int32, list<rstring>>
list<map<rstring, int64>> => list<map<rstring, int64>>
tuple<int64 rank> => tuple<int64 rank>
tuple<int32 WindowMarker> => tuple<int32 WindowMarker>
tuple<rstring b, boolean c> => tuple<rstring b, boolean c>
tuple<int64 a, tuple<rstring b, boolean c> d> => tuple<int64 a, tuple<rstring b, boolean c> d>
list<tuple<rstring b, boolean c>> => list<tuple<rstring b, boolean c>>
"#;

pub(crate) const DEFAULTS: &str = r#"
int8 => 0
uint64 => 0
boolean => false
rstring => ''
list<boolean> => []
map<rstring, boolean> => {}
map<rstring, rstring> => {}
tuple<int32 a, list<map<rstring, boolean>> b> => <0, []>
tuple<tuple<int32 a, list<map<rstring, boolean>> b> c, rstring d, boolean e> => <<0, []>, '', false>
"#;
