//! Which sites are watched.

ghost use Rattle.std.specs.Prelude.{◌≡◌, ◌<◌, ◌≤◌, length, if◌then◌else◌};
ghost use Rattle.lane_stamps.specs.Stamps.{AreLinks};

use crate::site::Site;

/// The nearer of two sites, if it is watched.
#[inline(always)]
fn nearer(site: &Site, at: u8, next: u8) -> u8
    ensures { result ≡ if site.now.watched then at else next }
{
    if site.watched { at } else { next }
}

/// Links each site to the next that is watched, from itself on; to the number of sites, if there is none.
pub(crate) fn link(sites: &[Site], links: &mut [u8])
    requires few { length sites.now ≤ 255 }
    requires room { length sites.now < length links.old }
    ensures { AreLinks sites.now links.new }
{
    let mut at = sites.len();
    let mut next = at as u8;
    links[at] = next;
    while at > 0 {
        at -= 1;
        next = nearer(&sites[at], at as u8, next);
        links[at] = next;
    }
}
