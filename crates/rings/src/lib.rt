// The closed chain of moves: the walk back from a raised site to a meeting finds it, and the shift moves its streets.
#![tactic(auto)]

ghost use Rattle.std.specs.Prelude.{◌≡◌, ◌+◌, ◌<◌, length, set, replicate, MatchOption};
ghost use Rattle.counting.specs.Lists.{at, cell};
ghost use Rattle.rings.specs.Rings.{moved, Moves, Walkable, Walked, Found, Linkable};

use counting::WIDTH;

// as many layers as a search can have, and its start
const LAYERS: usize = WIDTH + 1;

// The layer where a closed chain begins, and the number of its moves.
#[derive(Clone, Copy)]
pub struct Ring {
    pub from: usize,
    pub count: usize,
}

// The first place that a site has in a list, if it has one.
fn find(sites: &[u8], x: u8) -> Option<usize>
    ensures { Found sites.now x result }
{
    sites.iter().position(|site| *site == x)
}

// The layers of a search: a site for each, and the street that goes from it to the site of the layer above.
#[derive(Drop)]
pub struct Walk {
    pub streets: [u16; WIDTH],
    pub sites: [u8; LAYERS],
}

impl Walk {
    // A walk that has not begun.
    pub fn new() -> Self
        ensures { result.sites ≡ replicate LAYERS 0 }
    {
        Walk {
            streets: [0; WIDTH],
            sites: [0; LAYERS],
        }
    }

    // The walk from the site b, raised by the layer before k, down the layers until it meets a site again; the chain between is closed. There is
    // none only while there are fewer layers than sites.
    pub fn back(
        &mut self,
        vias: &[u16],
        division: &[u8],
        w: usize,
        k: usize,
        b: usize,
    ) -> Option<Ring>
        requires { Walkable vias.now division.now w k b }
        ensures { MatchOption result (k < w)
            (λ ring. Walked (cell vias.now w) division.now w k
            (at self.new.streets) (at self.new.sites) ring.from ring.count) }
    {
        self.sites[k] = b as u8;
        for l in (0..k).rev() {
            self.step(vias, division, w, l);
            if let Some(meeting) = find(&self.sites[l + 1..k + 1], self.sites[l]) {
                return Some(Ring {
                    from: l,
                    count: meeting + 1,
                });
            }
        }
        None
    }

    // One layer down: the street that raised the site above, and that street's own site.
    fn step(&mut self, vias: &[u16], division: &[u8], w: usize, l: usize)
        requires { Linkable vias.now division.now w l self.old.sites }
        ensures streets { self.new.streets
            ≡ set self.old.streets l (cell vias.now w l (at self.old.sites (l + 1))) }
        ensures sites { self.new.sites
            ≡ set self.old.sites l (at division.now (cell vias.now w l (at self.old.sites (l + 1)))) }
    {
        let x = usize::from(self.sites[l + 1]);
        let street = vias[l * w + x];
        self.streets[l] = street;
        self.sites[l] = division[usize::from(street)];
    }

    // Each street of the chain goes to the next site of it.
    pub fn shift(&self, division: &mut [u8], ring: Ring)
        requires { Moves (length division.old) self.now.streets ring.from ring.count }
        ensures { division.new ≡ moved division.old (at self.now.streets) (at self.now.sites)
            ring.from ring.count }
    {
        let from = ring.from;
        let to = from + ring.count;
        for (street, site) in self.streets[from..to].iter().zip(&self.sites[from + 1..]) {
            division[usize::from(*street)] = *site;
        }
    }
}
