// The lists that rows and records lead to.
ghost use Rattle.std.specs.Prelude.{◌≡◌, ◌+◌, ◌<◌, ◌≤◌, Some, None, IfOk, OnOk, IfErr};
ghost use Rattle.std.specs.List.{AllByRecursion};
ghost use Rattle.dd_block.specs.Geometry.{slot_count, GivesFault};
ghost use Rattle.dd_layout.specs.Layout as layout;
ghost use Rattle.dd_record.specs.Replay.{after_rec, replay};
ghost use Rattle.dd_record.specs.Table.{RowsFit};
ghost use Rattle.dd_model.specs.Listing.{empty_listing, restored};
ghost use Rattle.dd_model.specs.Applying.{IsSlotBelow, SameLimits};
ghost use Rattle.dd_journal.specs.Found.{IsFound, found_table, found_records};
ghost use Rattle.dd_journal.specs.Regions.{AreRows};
ghost use Rattle.dd_store.specs.Serving.{HasLimits};
ghost use Rattle.dd_recover.specs.Opening.{misfit_at, version_fault};
ghost use Rattle.dd_recover.specs.Stages.{Tells, IsCallFault, rows_refused, records_refused, found_fault, recs_of};

use crate::OpenFault;
use dd_block::Geometry;
use dd_journal::{Found, Placed};
use dd_layout::region_at;
use dd_model::{Lists, Misfit, apply};
use std::alloc::Global;

/// The lists behind the rows and the records that were found. It refuses the first row that doesn't fit,
/// then the first record, and then version 1.
pub(crate) fn lists_of<L: Lists>(
    alloc: Global,
    geo: Geometry,
    found: &Found,
) -> Result<L, OpenFault>
    requires { IsFound geo found.now }
    ensures fault { Tells result (found_fault geo found.now) }
    ensures quiet { IsCallFault result → ⊥ }
    ensures fit { OnOk result (RowsFit (found_table found.now)) }
    ensures version { OnOk result (found.now.head.version ≡ 2) }
    ensures limits { IfOk result (λ lists. HasLimits geo (L.listing lists)) }
    ensures rows { IfOk result (λ lists. AreRows geo 2 (L.listing lists).table) }
    ensures replayed { IfOk result (λ lists. replay geo.acap geo.bcap (found_records found.now) (found_table found.now) ≡ Some (L.listing lists).table) }
{
    let mut lists = restore_rows(alloc, geo, found)?;
    apply_records(&mut lists, found.region, &found.recs)?;
    check_version(found.head.version)?;
    Ok(lists)
}

// Lists with the rows that were found.
fn restore_rows<L: Lists>(alloc: Global, geo: Geometry, found: &Found) -> Result<L, OpenFault>
    requires { IsFound geo found.now }
    ensures fault { Tells result (rows_refused geo found.now.region (found_table found.now)) }
    ensures quiet { IsCallFault result → ⊥ }
    ensures lists { IfOk result (λ lists. L.listing lists ≡ restored (found_table found.now) (empty_listing geo.acap geo.bcap (slot_count geo))) }
{
    let mut lists = L::new(alloc, geo.acap, geo.bcap, geo.slots()).map_err(OpenFault::Memory)?;
    match lists.restore(&found.b, &found.a) {
        Ok(()) => Ok(lists),
        Err(misfit) => Err(OpenFault::Snapshot {
            region: found.region,
            at: row_at(geo, found.region, found.head.len_b, misfit),
        }),
    }
}

// Where a row that doesn't fit begins.
fn row_at(geo: Geometry, region: u32, len_b: u32, misfit: Misfit) -> u64
    requires region { region < 2 }
    requires rows { len_b ≤ geo.bcap }
    ensures { result ≡ layout.region_at geo region + misfit_at len_b misfit }
{
    region_at(geo, region) + misfit_at(len_b, misfit)
}

fn misfit_at(len_b: u32, misfit: Misfit) -> u64
    requires { len_b ≤ 65536 }
    ensures { result ≡ misfit_at len_b misfit }
{
    if misfit.in_a {
        33 + 36 * u64::from(len_b) + 44 * u64::from(misfit.index)
    } else {
        33 + 36 * u64::from(misfit.index)
    }
}

// Applies the records of a region, the oldest first, up to the first one that doesn't fit.
fn apply_records<L: Lists>(lists: &mut L, region: u32, recs: &[Placed]) -> Result<(), OpenFault>
    requires { AllByRecursion (λ rec. IsSlotBelow (L.listing lists.old).slots rec) (recs_of recs.now) }
    ensures fault { GivesFault result (records_refused (L.listing lists.old).acap (L.listing lists.old).bcap region recs.now (L.listing lists.old).table) }
    ensures quiet { IsCallFault result → ⊥ }
    ensures rows { OnOk result (replay (L.listing lists.old).acap (L.listing lists.old).bcap (recs_of recs.now) (L.listing lists.old).table ≡ Some (L.listing lists.new).table) }
    ensures limits { SameLimits (L.listing lists.old) (L.listing lists.new) }
{
    for placed in recs {
        apply_record(lists, region, *placed)?;
    }
    Ok(())
}

// Applies a record, where it fits.
fn apply_record<L: Lists>(lists: &mut L, region: u32, placed: Placed) -> Result<(), OpenFault>
    requires { IsSlotBelow (L.listing lists.old).slots placed.rec }
    ensures ok { OnOk result (after_rec (L.listing lists.old).acap (L.listing lists.old).bcap placed.rec (L.listing lists.old).table ≡ Some (L.listing lists.new).table) }
    ensures err { IfErr result (λ fault. (fault ≡ OpenFault.Group region placed.at)
        × (after_rec (L.listing lists.old).acap (L.listing lists.old).bcap placed.rec (L.listing lists.old).table ≡ None)) }
    ensures limits { SameLimits (L.listing lists.old) (L.listing lists.new) }
{
    match apply(lists, placed.rec) {
        Some(_) => Ok(()),
        None => Err(OpenFault::Group {
            region,
            at: placed.at,
        }),
    }
}

// A flash of version 1 isn't opened.
fn check_version(version: u32) -> Result<(), OpenFault>
    ensures fault { GivesFault result (version_fault version) }
    ensures quiet { IsCallFault result → ⊥ }
{
    if version == 1 {
        return Err(OpenFault::Version1);
    }
    Ok(())
}
