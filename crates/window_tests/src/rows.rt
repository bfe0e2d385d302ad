use crate::beside::Beside;
use crate::events::Windows;
use crate::many::{Keys, Tuples};
use crate::sums::Sums;
use std::test::Fail;
use test_texts::rows::expect;

const COUNTS: &str = r#"
# A window of two tuples of each key
tumbling count 2 | a:a/1 b:b/2 a:a/3 a:a/4 b:b/5 => . . [a/1 a/3] . [b/2 b/5]
tumbling count 2 | ?a a:1 ?a ?b a:2 ?a => none . [1] none [1 2] []

# A window of one tuple
tumbling count 1 | :1 :2 ? => [1] [2] []

# Window markers don't flush it
tumbling count 2 | :1 mark :2 mark ? => . {} [1 2] {} []

# The last three of each key, at each tuple of it
sliding count 3 1 | a:1 a:2 b:9 a:3 a:4 => *[1] *[1 2] *[9] *[1 2 3] *[2 3 4]

# The trigger counts the tuples of a key
sliding count 3 2 | a:1 b:2 a:3 b:4 a:5 => . . *[1 3] *[2 4] .

# It may be above what is kept, and no multiple of it
sliding count 2 3 | :1 :2 :3 :4 :5 :6 => . . *[2 3] . . *[5 6]
sliding count 1 1 | :1 :2 mark ? => *[1] *[2] {} [2]

# Without one a window never fires
sliding count 2 | :1 :2 :3 ? => . . . [2 3]
sliding count 0 | ? :1 ? => none . []
"#;

#[test]
fn counts(rt: HostRuntime) -> Result<(), Fail> {
    expect(rt.alloc(), &Windows, &[COUNTS])?;
    Ok(())
}

const DELTAS: &str = r#"
# The tuple that exceeds the first one by more than the limit is behind the flush
tumbling delta 0 10 | :0/1 :10/2 :11/3 ? => . . [0/1 10/2] [11/3]
tumbling delta 1 10 | :7/0 :7/10 :0/11 => . . [7/0 7/10]
tumbling delta 0 10 | a:0 b:11 a:11 b:21 b:22 => . . [0] . [11 21]

# Lower ones stay in the window, and the first one counts, not the last
tumbling delta 0 10 | :0 :-20 :5 :11 ? => . . . [0 -20 5] [11]
tumbling delta 0 10 | :5 :0 :15 :16 => . . . [5 0 15]

# A limit of 0, and one that differences can't exceed
tumbling delta 0 0 | :5 :5 :6 :6 :7 => . . [5 5] . [6 6]
tumbling delta 0 18446744073709551615 | :-9223372036854775808 :9223372036854775807 => . .

# Differences don't wrap
tumbling delta 0 0 | :-9223372036854775808 :9223372036854775807 => . [-9223372036854775808]
tumbling delta 0 9223372036854775807 | :9223372036854775807 :-9223372036854775808 :-1 :9223372036854775807 => . . . .
tumbling delta 0 9223372036854775807 | :-9223372036854775808 :-1 :0 => . . [-9223372036854775808 -1]
tumbling delta 0 0 | :0 :18446744073709551615 => . [0]

# A marker doesn't flush it
tumbling delta 0 10 | :0 mark ? => . {} [0]

# What a later tuple exceeds by more than the limit goes
sliding delta 0 5 1 | :0 :5 :6 => *[0] *[0 5] *[5 6]
sliding delta 0 5 1 | a:0 b:9 a:5 b:6 a:6 => *[0] *[9] *[0 5] *[9 6] *[5 6]
sliding delta 1 5 2 | :9/0 :9/5 :9/6 :9/7 => . *[9/0 9/5] . *[9/5 9/6 9/7]
sliding delta 0 5 3 | :0 :9 :9 :9 ? => . . *[9 9] . [9 9 9]
sliding delta 0 5 | :0 :9 ? => . . [9]

# Wherever it stands
sliding delta 0 5 1 | :10 :0 :7 => *[10] *[10 0] *[10 7]
sliding delta 0 5 1 | :6 :0 :1 :7 :12 => *[6] *[6 0] *[6 0 1] *[6 7] *[7 12]
sliding delta 0 5 1 | :6 :0 :6 :1 :7 :12 :13 => *[6] *[6 0] *[6 6] *[6 6 1] *[6 6 7] *[7 12] *[12 13]

# A limit of 0, and greatest differences
sliding delta 0 0 1 | :5 :5 :6 :4 :5 => *[5] *[5 5] *[6] *[6 4] *[6 5]
sliding delta 0 0 1 | :-9223372036854775808 :9223372036854775807 => *[-9223372036854775808] *[9223372036854775807]
sliding delta 0 9223372036854775807 | :-9223372036854775808 :-1 ? :0 ? => . . [-9223372036854775808 -1] . [-1 0]
sliding delta 0 0 1 | :9223372036854775807 :-9223372036854775808 => *[9223372036854775807] *[9223372036854775807 -9223372036854775808]
"#;

#[test]
fn deltas(rt: HostRuntime) -> Result<(), Fail> {
    expect(rt.alloc(), &Windows, &[DELTAS])?;
    Ok(())
}

const MARKERS: &str = r#"
# A marker flushes each window that isn't empty, by ascending key
tumbling punct | b:b/1 a:a/2 b:b/0 mark a:a/5 mark => . . . {a[a/2] b[b/1 b/0]} . {a[a/5]}
tumbling punct | mark :1 mark mark => {} . {[1]} {}

# A key that came keeps an empty content
tumbling punct | ?a a:1 ?a mark ?a ?b b:2 ?a => none . [1] {a[1]} [] none . []
tumbling punct | a:1 mark a:2 ?a mark a:3 mark ?a => . {a[1]} . [2] {a[2]} . {a[3]} []

# Keys of several values, the first of which decides
tumbling punct | 2/a:1 1/b:2 1/a:3 2/a:4 mark => . . . . {1/a[3] 1/b[2] 2/a[1 4]}
tumbling punct | a/2:1 b/1:2 a/1:3 a/2:4 mark => . . . . {a/1[3] a/2[1 4] b/1[2]}

# Texts by their bytes, a text behind one that it goes on from, and numbers by what they are
tumbling punct | b:1 ab:2 a:3 B:4 abc:5 mark => . . . . . {B[4] a[3] ab[2] abc[5] b[1]}
tumbling punct | 5:1 -1:2 10:3 0:4 mark => . . . . {-1[2] 0[4] 5[1] 10[3]}
"#;

#[test]
fn markers(rt: HostRuntime) -> Result<(), Fail> {
    expect(rt.alloc(), &Windows, &[MARKERS])?;
    Ok(())
}

const TUPLES: &str = r#"
# Windows of the most tuples that a count may have
tumbling count 1000000 | 999999 => fires 0, lets go of 0, holds 999999 from 0 to 999998
tumbling count 1000000 | 1000000 => fires 1, lets go of 1000000, holds 0
sliding count 1000000 1000000 | 999999 => fires 0, lets go of 0, holds 999999 from 0 to 999998
sliding count 1000000 1000000 | 1000001 => fires 1, lets go of 0, holds 1000000 from 1 to 1000000
sliding count 1 1000000 | 1000000 => fires 1, lets go of 0, holds 1 from 999999 to 999999

# Windows of other sizes
tumbling count 7 | 1000 => fires 142, lets go of 994, holds 6 from 994 to 999
sliding count 1000 3 | 5000 => fires 1666, lets go of 0, holds 1000 from 4000 to 4999
tumbling delta 0 99 | 1000 => fires 9, lets go of 900, holds 100 from 900 to 999
sliding delta 0 99 1 | 1000 => fires 1000, lets go of 0, holds 100 from 900 to 999
tumbling punct | 1000 => fires 0, lets go of 0, holds 1000 from 0 to 999
"#;

#[test]
fn many_tuples(rt: HostRuntime) -> Result<(), Fail> {
    expect(rt.alloc(), &Tuples, &[TUPLES])?;
    Ok(())
}

const KEYS: &str = r#"
# So many keys, whose tuples come in another order
2 => 2 ascending, then 0, holds 0
1000 => 1000 ascending, then 0, holds 0
100000 => 100000 ascending, then 0, holds 0
"#;

#[test]
fn many_keys(rt: HostRuntime) -> Result<(), Fail> {
    expect(rt.alloc(), &Keys, &[KEYS])?;
    Ok(())
}

const SUMS: &str = r#"
# A sum wraps, and wraps down again when a tuple leaves
sliding count 3 1 | min max sum8 | :5 :3 :4 :100 :27 => [5/5/5 of 5] [3/5/8 of 3] [3/5/12 of 4] [3/100/107 of 100] [4/100/-125 of 27]
sliding count 2 1 | sum8 | :100 :100 :1 => [100 of 100] [-56 of 100] [101 of 1]
sliding count 2 1 | sumu8 | :200 :100 :1 => [200 of 200] [44 of 100] [101 of 1]

# Equal greatest values leave one by one, and so do texts
sliding count 3 1 | max | :7 :7 :1 :2 :3 => [7 of 7] [7 of 7] [7 of 1] [7 of 2] [3 of 3]
sliding count 2 1 | min max | :b :a :ab :c => [b/b of b] [a/b of a] [a/ab of ab] [ab/c of c]

# The trigger is above the count, counts the tuples of a key, or is absent
sliding count 2 3 | sum64 count first last | :1 :2 :3 :4 :5 :6 => . . [5/2/2/3 of 3] . . [11/2/5/6 of 6]
sliding count 3 2 | sum64 | a:1 b:2 a:3 b:4 a:5 => . . [4 of 3] [6 of 4] .
sliding count 2 | sum64 | :1 :2 :3 => . . .

# Folds begin anew after each flush
tumbling count 2 | sum64 max first | :9 :1 :2 :3 => . [10/9/9 of 1] . [5/3/2 of 3]
tumbling count 2 | sum64 count min last | a:1 b:2 a:3 mark a:4 b:5 => . . [4/2/1/3 of 3] {} . [7/2/2/5 of 5]
tumbling count 1 | max | :1 :2 => [1 of 1] [2 of 2]

# Before the tuple that exceeds the first one by more than the limit, by the tuple and not by its arguments
tumbling delta 0 10 | sum64 count | :0 :10 :11 :22 => . . [10/2 of 10] [11/1 of 11]
tumbling delta 0 5 | sum64 | :0+100 :6+1 :7+1 :20+3 => . [100 of 0] . [2 of 7]
tumbling delta 0 0 | count | :-9223372036854775808 :9223372036854775807 => . [1 of -9223372036854775808]

# A marker flushes each key that has a tuple, by ascending key
tumbling punct | sum64 last | b:1 a:2 b:3 mark a:4 mark mark => . . . {a[2/2 of 2] b[4/3 of 3]} . {a[4/4 of 4]} {}
"#;

#[test]
fn running_sums(rt: HostRuntime) -> Result<(), Fail> {
    expect(rt.alloc(), &Sums, &[SUMS])?;
    Ok(())
}

const BESIDE: &str = r#"
# Random programs: each answers as the folds over whole contents
200 of 60 => 200
"#;

#[test]
fn beside_whole_contents(rt: HostRuntime) -> Result<(), Fail> {
    expect(rt.alloc(), &Beside, &[BESIDE])?;
    Ok(())
}
