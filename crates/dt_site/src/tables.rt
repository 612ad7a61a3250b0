//! What the tables of all regions have before anything happens.
ghost use Rattle.std.specs.Prelude.{◌≡◌, IfOk};
ghost use Rattle.dt_region.specs.Conditions.{IsTableFor};
ghost use Rattle.dt_cluster.specs.Valid.{IsValidCluster};
ghost use Rattle.dt_session.specs.World.{opening_table};

use dt_cluster::Cluster;
use dt_table::{Opening, Table};
use dt_text::NoMemory;
use std::alloc::Global;

/// The homes and rows that a cluster lists, as the tables of all regions share them.
pub fn opening_of(alloc: Global, cluster: &Cluster) -> Result<Opening, NoMemory>
    requires { IsValidCluster cluster.now }
    ensures homes { IfOk result (λ opening. opening.homes ≡ cluster.now.homes) }
    ensures rows { IfOk result (λ opening. opening.rows ≡ cluster.now.rows) }
{
    Opening::new(alloc, cluster.homes.as_slice(), cluster.rows.as_slice())
}

/// The table that every region of a cluster has at first. It shares the homes and rows, which are those of the cluster, with
/// every other table that is made of them.
pub fn first_table(alloc: Global, cluster: &Cluster, opening: &Opening) -> Result<Table, NoMemory>
    requires cluster { IsValidCluster cluster.now }
    requires homes { opening.now.homes ≡ cluster.now.homes }
    requires rows { opening.now.rows ≡ cluster.now.rows }
    ensures opening { IfOk result (λ table. table.state ≡ opening_table cluster.now) }
    ensures sized { IfOk result (λ table. IsTableFor cluster.now.regions table.state) }
{
    let table = Table::of(alloc, cluster.version, cluster.regions, opening)?;
    Ok(table)
}
