// What references come to.
ghost use Rattle.std.specs.Prelude.{◌≡◌, is_some, None, IfSome};
ghost use Rattle.dd_gen.specs.Sums.{no_sums, with_kind, with_cut, AreBelow};

use dd_model::{Done, Kind};
use dd_script::Sums;

pub(crate) fn no_sums() -> Sums
    ensures { result ≡ no_sums }
{
    Sums {
        hits: 0,
        joins: 0,
        misses: 0,
        dups: 0,
        news: 0,
        outs: 0,
        drops: 0,
    }
}

// One reference more, where there was one.
pub(crate) fn count_done(sums: Sums, done: Option<Done>) -> Sums
    requires room { AreBelow 4294967295 sums }
    ensures some { IfSome done (λ done. result ≡ with_cut (is_some done.cut.out) (is_some done.cut.drop) (with_kind done.kind sums)) }
    ensures none { done ≡ None → result ≡ sums }
{
    match done {
        None => sums,
        Some(done) => count_reference(sums, done),
    }
}

// One reference more.
fn count_reference(sums: Sums, done: Done) -> Sums
    requires room { AreBelow 4294967295 sums }
    ensures sums { result ≡ with_cut (is_some done.cut.out) (is_some done.cut.drop) (with_kind done.kind sums) }
{
    let mut counted = count_kind(sums, done.kind);
    counted.outs += u32::from(done.cut.out.is_some());
    counted.drops += u32::from(done.cut.drop.is_some());
    counted
}

fn count_kind(mut sums: Sums, kind: Kind) -> Sums
    requires room { AreBelow 4294967295 sums }
    ensures sums { result ≡ with_kind kind sums }
    ensures outs { result.outs ≡ sums.outs }
    ensures drops { result.drops ≡ sums.drops }
{
    match kind {
        Kind::Hit => sums.hits += 1,
        Kind::Join => sums.joins += 1,
        Kind::Miss => sums.misses += 1,
        Kind::Dup => sums.dups += 1,
        Kind::New => sums.news += 1,
    }
    sums
}
