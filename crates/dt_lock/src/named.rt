use std::marker::Brand;

/// The name of one round. It has no call: contracts see in it the region as it was before the round, its events with it, and
/// the procedures. What carries one name belongs to one round.
pub trait Named {
    ghost use Rattle.std.specs.Prelude.{List};
    ghost use Rattle.dt_proc.specs.Tree.{ProcTree};
    ghost use Rattle.dt_region.specs.Region.{RegionView};

    ghost before: { RegionView };

    ghost procs: { List ProcTree };
}

impl Named for Brand {
    ghost use Rattle.std.specs.Prelude.{[]};
    ghost use Rattle.dt_table.specs.Table.{opening};
    ghost use Rattle.dt_region.specs.Rules.{opening_state};

    ghost before = { record { state = opening_state 0 1 (opening 1 1 [] []); events = []; heard = 0; room = 0 } };

    ghost procs = { [] };
}
