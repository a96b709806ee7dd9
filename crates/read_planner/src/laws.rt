//! Laws of the definitions.
ghost use Rattle.std.specs.Prelude.{◌≡◌, ℕ, List, All, Bool, None, map};
ghost use Rattle.point_list.specs.declared.point.ListRow.{ListRow};
ghost use Rattle.point_list.specs.Columns.{Record};
ghost use Rattle.point_list.specs.Edition.{Edition};
ghost use Rattle.point_list.specs.Lists.{AreRows};
ghost use Rattle.point_list.specs.Resolving.{first_misplaced, point_placed};
ghost use Rattle.point_list.specs.Sites.{IsSound};
ghost use Rattle.point_list.specs.declared.site.Site.{Site};
ghost use Rattle.read_planner.specs.declared.Read.{Read};
ghost use Rattle.read_planner.specs.declared.place.Place.{Place};
ghost use Rattle.read_planner.specs.Allowed.{HoldsAll};
ghost use Rattle.read_planner.specs.Chosen.{AreChosen};
ghost use Rattle.read_planner.specs.Place.{CanBeRead};

/// Of any points one list of reads is the chosen one.
pub fn one_plan()
    ensures { (places : List Place) (gap : ℕ) (reads others : List Read) → AreChosen places gap reads → HoldsAll reads places → AreChosen places gap others → HoldsAll others places → reads ≡ others }
{}

/// The points of a list's rows, as `read_list` gives them, are points that `plan` takes, and so they are at the
/// addresses that `resolve` gives them.
pub fn listed_points()
    ensures rows { (edition : Edition) (known : List ℕ → Bool) (list : List Record) (rows : List ListRow)
        → AreRows edition known list rows → All (λ (x : ListRow). CanBeRead x.point) rows }
    ensures points { (edition : Edition) (site : Site) (known : List ℕ → Bool) (list : List Record) (rows : List ListRow)
        → IsSound site → AreRows edition known list rows
        → first_misplaced site rows ≡ None → All CanBeRead (map (point_placed site) rows) }
{}
