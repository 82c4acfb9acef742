// The evaluation of one set of placements.
#![tactic(auto)]

ghost use Rattle.std.specs.Prelude.{◌≡◌, List, ℕ, length};
ghost use Rattle.std.proofs.Math.Option.{none};
ghost use Rattle.ground_rects.specs.Windows.{centres};
ghost use Rattle.rule_routes.specs.Edges.{steps_of};
ghost use Rattle.rule_layouts.specs.Inputs.{board_of};
ghost use Rattle.rule_layouts.specs.Explore as layouts;
ghost use Rattle.set_places.specs.Given.{inputs_in};
ghost use Rattle.set_board.specs.Ready.{ReadyFor, BlankIn};
ghost use Rattle.set_pass.specs.Pass.{Shutting};
ghost use Rattle.set_pass.specs.Lent.{Lent, Restored, block_past, map_block};
ghost use Rattle.set_explore.specs.Evaluation.{Evaluated, MapRestoredIn, ReadyOn, board_on};
ghost use Rattle.set_pass.specs.Same.{SameAreas};

use set_blocked::Mover;
use set_pass::{Areas, Ground};
use set_places::Given;

// What the evaluation of a set comes to: nothing follows, so many extensions in the list, or a wall with so many points of the allowed
// route in the route.
#[derive(Clone, Copy)]
pub enum Explored {
    Nothing,
    Extend(usize),
    Wall(usize),
}

// The evaluation of a set that leaves the blocked mover no route and whose map is laid.
fn wall_of(ground: &Ground<'_>, given: &Given<'_>, set: &[u16], areas: &mut Areas<'_>) -> Explored
    requires route_lent { Lent ground.now areas.old }
    requires shutting { Shutting ground.now given.now set.now }
    requires map_value { areas.old.map.now ≡ map_block ground.now given.now set.now }
    requires set_value { block_past ground.now given.now set.now ≡ none }
    ensures by_index { (n : ℕ) (list : List ℕ)
        → Evaluated (layouts.explore (board_on ground.now given.now n) set.now)
        result list list areas.old.route.now areas.new.route.now }
    ensures search_restored { Restored areas.old areas.new }
    ensures map_bytes { length areas.new.map.now ≡ centres ground.now.window }
    ensures route_length { length areas.new.route.now ≡ length areas.old.route.now }
    ensures same_areas { SameAreas areas.old areas.new }
{
    if !set_pass::ends_open(ground, areas) {
        return Explored::Nothing;
    }
    let block = Mover {
        bounds: given.query.block,
        base: given.block_base,
    };
    if !set_pass::is_minimal_block(ground, &block, set, areas) {
        return Explored::Nothing;
    }
    match set_pass::allowed_route(ground, given.query.allow, given.allow_base, set, areas) {
        Some(n) => Explored::Wall(n),
        None => Explored::Nothing,
    }
}

// The evaluation of the set, which leaves its map behind.
fn evaluate(
    ground: &Ground<'_>,
    given: &Given<'_>,
    set: &[u16],
    list: &mut [u16],
    areas: &mut Areas<'_>,
) -> Explored
    requires ready { ReadyOn ground.now given.now set.now (length list.old) }
    requires route_lent { Lent ground.now areas.old }
    ensures evaluated { Evaluated (layouts.explore (board_on ground.now given.now (length list.old)) set.now)
        result list.old list.new areas.old.route.now areas.new.route.now }
    ensures search_restored { Restored areas.old areas.new }
    ensures map_bytes { length areas.new.map.now ≡ centres ground.now.window }
    ensures route_length { length areas.new.route.now ≡ length areas.old.route.now }
    ensures same_areas { SameAreas areas.old areas.new }
{
    let block = Mover {
        bounds: given.query.block,
        base: given.block_base,
    };
    let Some(n) = set_pass::route_past(ground, &block, set, None, areas) else {
        return wall_of(ground, given, set, areas);
    };
    let route = &mut *areas.route;
    let found = set_extend::extensions(
        &ground.places,
        ground.window,
        block.bounds,
        set,
        &route[..n],
        list,
    );
    base_areas::clear(route, n, 0);
    Explored::Extend(found)
}

// The evaluation of a set: its extensions, in index order, in the first entries of the list, or the allowed route past a wall in those of
// the route. The other areas are zero before and after.
pub fn explore(
    given: &Given<'_>,
    steps: &[i32],
    set: &[u16],
    list: &mut [u16],
    areas: &mut Areas<'_>,
) -> Explored
    requires ready { ReadyFor given.now steps.now set.now (length list.old) }
    requires blank { BlankIn (centres given.now.query.window) areas.old }
    ensures evaluated { Evaluated (layouts.explore (board_of (steps_of steps.now) (inputs_in given.now)) set.now)
        result list.old list.new areas.old.route.now areas.new.route.now }
    ensures map_restored { MapRestoredIn areas.old areas.new }
    ensures route_length { length areas.new.route.now ≡ length areas.old.route.now }
    ensures same_areas { SameAreas areas.old areas.new }
{
    let query = given.query;
    let ground = Ground {
        window: query.window,
        start: ground_centres::centre_at(query.window, query.start),
        end: ground_centres::centre_at(query.window, query.end),
        places: given.places,
        steps,
    };
    let explored = evaluate(&ground, given, set, list, areas);
    areas.map.fill(0);
    explored
}
