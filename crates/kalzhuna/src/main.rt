//! An account of floors: who hears whom, which links are kept, and how packets go round.

#![tactic(auto)]

use std::io;

mod floors;
mod frames;
mod packets;
mod pasts;
mod placing;
mod refusals;
mod sends;
mod story;
mod thinning;

// The theorems that the account rests on, asked for by the contracts of these calls.
fn theorems() {
    plane::plane_laws();
    orbit::faces_close();
    order::direction::arc_laws();
    host::sides::switching_laws();
    kept::laws::kept_laws();
    face::worked::worked_floors();
}

fn main(rt: HostRuntime) -> io::Result<()> {
    theorems();
    placing::tell(&rt)?;
    thinning::tell(&rt)?;
    packets::tell(&rt)?;
    frames::tell(&rt)?;
    story::tell(&rt)
}
