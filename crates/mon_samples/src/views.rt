//! The switch 1 and its neighbours.

ghost use Rattle.std.specs.Prelude.{◌≡◌, IfOk};
ghost use Rattle.mon_shows.specs.Links.{PortsAscend};

use mon_list::{Items, OutOfMemory};
use mon_shows::{Near, Nears, View};
use mon_topo::Vids;
use std::alloc::Global;

/// Links at the ports 1 and 2 to the switches 2 and 3, which both have the tag 101.
pub fn neighbours(alloc: Global) -> Result<Nears, OutOfMemory>
    ensures { IfOk result (λ links. PortsAscend 0 links) }
{
    let mut links = Items::new(alloc);
    links.push(Near {
        port: 1,
        switch: 2,
        far_port: 1,
        tag: 101,
    })?;
    links.push(Near {
        port: 2,
        switch: 3,
        far_port: 1,
        tag: 101,
    })?;
    Ok(links)
}

/// The switch 1 with the tag 100 and these links, which sends so many bytes of what it misses.
pub fn with_neighbours(alloc: Global, links: Nears, miss: u16) -> Result<View, OutOfMemory>
    requires { PortsAscend 0 links }
    ensures { IfOk result (λ view. view.links ≡ links) }
{
    let mut tags = Vids::new(alloc);
    tags.push(100)?;
    tags.push(101)?;
    Ok(View {
        switch: 1,
        tag: 100,
        tags,
        links,
        miss,
    })
}

/// The switch 1 between its two neighbours, which sends 128 bytes of what it misses.
pub fn two_neighbours(alloc: Global) -> Result<View, OutOfMemory> {
    with_neighbours(alloc, neighbours(alloc)?, 128)
}
