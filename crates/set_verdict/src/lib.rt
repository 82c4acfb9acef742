// The verdict on a set of placements.
#![tactic(auto)]

ghost use Rattle.std.specs.Prelude.{◌≡◌, ◌/◌, length};
ghost use Rattle.ground_rects.specs.Windows.{centres};
ghost use Rattle.rule_routes.specs.Edges.{steps_of};
ghost use Rattle.rule_layouts.specs.Inputs.{board_of};
ghost use Rattle.rule_layouts.specs.Judge as layouts;
ghost use Rattle.set_places.specs.Given.{inputs_in};
ghost use Rattle.set_pass.specs.Pass.{Shutting};
ghost use Rattle.set_pass.specs.Lent.{Lent, Kept};
ghost use Rattle.set_board.specs.Ready.{ReadyFor, BlankIn};
ghost use Rattle.set_verdict.specs.Fit.{fit_on};
ghost use Rattle.set_pass.specs.Same.{SameAreas};

use base_model::Verdict;
use set_blocked::Mover;
use set_pass::{Areas, Ground};
use set_places::Given;

// The verdict on a set within the slots whose footprints do not overlap. The map is left laid.
fn fit_verdict(
    ground: &Ground<'_>,
    given: &Given<'_>,
    set: &[u16],
    areas: &mut Areas<'_>,
) -> Verdict
    requires route_lent { Lent ground.now areas.old }
    requires shutting { Shutting ground.now given.now set.now }
    ensures value { result ≡ fit_on ground.now given.now set.now }
    ensures areas_kept { Kept areas.old areas.new }
    ensures map_bytes { length areas.new.map.now ≡ centres ground.now.window }
    ensures same_areas { SameAreas areas.old areas.new }
{
    let block = Mover {
        bounds: given.query.block,
        base: given.block_base,
    };
    let open = set_pass::lets_pass(ground, &block, set, None, areas);
    if !set_pass::ends_open(ground, areas) {
        return Verdict::EndCovered;
    }
    if open {
        return Verdict::Open;
    }
    set_shut::shut_verdict(ground, given, set, areas)
}

// What a set of placements comes to: the first of the verdicts that holds. The areas are zero before and after.
pub fn verdict(given: &Given<'_>, steps: &[i32], set: &[u16], areas: &mut Areas<'_>) -> Verdict
    requires ready { ReadyFor given.now steps.now set.now (length given.now.places.numbers.now / 4) }
    requires blank { BlankIn (centres given.now.query.window) areas.old }
    ensures value { result ≡ layouts.verdict (board_of (steps_of steps.now) (inputs_in given.now)) set.now }
    ensures blank_2 { BlankIn (centres given.now.query.window) areas.new }
    ensures same_areas { SameAreas areas.old areas.new }
{
    if set_clash::over_slots(&given.places, set) {
        return Verdict::Slots;
    }
    if set_clash::overlaps(&given.places, set) {
        return Verdict::Overlap;
    }
    let query = given.query;
    let ground = Ground {
        window: query.window,
        start: ground_centres::centre_at(query.window, query.start),
        end: ground_centres::centre_at(query.window, query.end),
        places: given.places,
        steps,
    };
    let verdict = fit_verdict(&ground, given, set, areas);
    areas.map.fill(0);
    verdict
}
