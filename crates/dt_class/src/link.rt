/// The way in which a search goes along edges.
#[derive(Clone, Copy)]
pub enum Way {
    /// From the source to the target.
    Forth,
    /// From the target to the source.
    Back,
}

/// An edge as a graph keeps it: with the places of the edges added before it that begin where it begins, and that end
/// where it ends, of each the newest one. So the edges of a vertex are found from its newest one on, with no other
/// edge looked at.
#[derive(Clone, Copy)]
pub struct Link {
    pub source: u32,
    pub target: u32,
    pub earlier_from: Option<usize>,
    pub earlier_into: Option<usize>,
}

impl Link {
    ghost use Rattle.std.specs.Prelude.{◌≡◌};
    ghost use Rattle.dt_class.specs.LinksInner.{far_end, earlier_link};

    /// The vertex that the link leads to, the way that is asked.
    pub fn far_end(&self, way: Way) -> u32
        ensures { result ≡ far_end way self.now }
    {
        match way {
            Way::Forth => self.target,
            Way::Back => self.source,
        }
    }

    /// The place of the link before it that leads from the same vertex, the way that is asked.
    pub fn earlier(&self, way: Way) -> Option<usize>
        ensures { result ≡ earlier_link way self.now }
    {
        match way {
            Way::Forth => self.earlier_from,
            Way::Back => self.earlier_into,
        }
    }
}
