// The search record as fifty numbers: read and laid.
#![tactic(auto)]

ghost use Rattle.std.specs.Prelude.{◌≡◌, ◌++◌, ◌≤◌, length, drop};
ghost use Rattle.base_model.specs.Answers.{reply_of};
ghost use Rattle.base_model.specs.declared.Record as declared;
ghost use Rattle.rule_calls.specs.Calls.{record_or};
ghost use Rattle.walls_numbers.specs.Numbers.{record_from, record_numbers};
ghost use Rattle.walls_numbers.specs.Lent.{record_in, numbers_left};

use base_model::{LAYOUTS, Record, Refusal, SLOTS, no_record};
use walls_numbers::RECORD_NUMBERS;

// Where the parts of a record stand among its numbers.
const PENDING: usize = 5;

const ROUTES: usize = 6;

const LENGTHS: usize = ROUTES + LAYOUTS;

const NEXTS: usize = LENGTHS + SLOTS;

// Each entry becomes that of `from`: the one copy of all rows, which must-fail/first_entry_not_copied.edit changes.
fn copy(to: &mut [u32], from: &[u32])
    requires { length to.old ≡ length from.now }
    ensures { to.new ≡ from.now }
{
    to.copy_from_slice(from);
}

// The record that the first fifty numbers are.
fn record_of(rec: &[u32]) -> Record
    requires { 50 ≤ length rec.now }
    ensures { result ≡ record_from rec.now }
{
    let mut routes = [0; LAYOUTS];
    let mut lengths = [0; SLOTS];
    let mut nexts = [0; SLOTS];
    copy(&mut routes, &rec[ROUTES..LENGTHS]);
    copy(&mut lengths, &rec[LENGTHS..NEXTS]);
    copy(&mut nexts, &rec[NEXTS..RECORD_NUMBERS]);
    Record {
        reason: rec[0],
        evaluations: rec[1],
        placements: rec[2],
        layouts: rec[3],
        lists: rec[4],
        pending: rec[PENDING] == 1,
        routes,
        lengths,
        nexts,
    }
}

// The record that the numbers are: none where there are too few of them, or pending is neither 0 nor 1.
#[tactic(auto, using(crate::proofs::Reading::reading))]
pub fn record_in(rec: &[u32]) -> Record
    ensures { result ≡ record_in rec.now }
{
    if rec.len() < RECORD_NUMBERS || rec[PENDING] > 1 {
        return no_record();
    }
    record_of(rec)
}

// The first fifty numbers become those of the record.
fn put_record(rec: &mut [u32], r: Record)
    requires { 50 ≤ length rec.old }
    ensures { rec.new ≡ record_numbers r ++ drop 50 rec.old }
{
    let head = [
        r.reason,
        r.evaluations,
        r.placements,
        r.layouts,
        r.lists,
        u32::from(r.pending),
    ];
    copy(&mut rec[..ROUTES], &head);
    copy(&mut rec[ROUTES..LENGTHS], &r.routes);
    copy(&mut rec[LENGTHS..NEXTS], &r.lengths);
    copy(&mut rec[NEXTS..RECORD_NUMBERS], &r.nexts);
}

// Lays the record where the call was accepted and there is room.
pub fn put_reply(rec: &mut [u32], reply: Result<Record, Refusal>)
    ensures { (before : declared.Record) → rec.new ≡ numbers_left (reply_of reply) (record_or before reply) rec.old }
{
    let Ok(r) = reply else {
        return;
    };
    if rec.len() >= RECORD_NUMBERS {
        put_record(rec, r);
    }
}
