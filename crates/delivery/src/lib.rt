//! Every packet's run over an unchanged host ends in time, and ends rightly.

#![tactic(auto)]

ghost use Rattle.std.specs.Prelude.{◌≡◌, Ok};
ghost use Rattle.face.specs.declared.packet.Packet.TheVariants as variants;
ghost use Rattle.face.specs.declared.record.Record.{Record};
ghost use Rattle.delivery.specs.Law.{EveryRun};
ghost use Rattle.delivery.specs.Run.{gone_on, run_answer, run_told, RunsRightly};

use face::packet::{Held, Packet, Refusal, Unsent};
use face::record::Record;
use floor::planariser::Planariser;
use host::sides::Reading;
use kept::links::KeptGraph;

// One send on, where the packet may go.
fn go_on<R: Reading, P: Planariser>(held: Held, graph: KeptGraph<'_, R, P>) -> Packet
    ensures { result ≡ gone_on (P.Planariser.blocking graph.entry.planariser.now) (R.Reading.meaning graph.entry.host.now) (variants.Held held) }
{
    match held.hop(graph) {
        Ok(next) => next,
        Err(Unsent { why: _, held }) => Packet::Held(held),
    }
}

/// Runs a packet from `source` to `target` to its end, or through `budget` sends; three for each kept link suffice.
pub fn deliver<R: Reading, P: Planariser>(
    graph: KeptGraph<'_, R, P>,
    source: u8,
    target: u8,
    budget: u16,
) -> Result<Record, Refusal>
    ensures answer { run_told result ≡ run_answer (P.Planariser.blocking graph.entry.planariser.now) (R.Reading.meaning graph.entry.host.now) source target budget }
    ensures rightly { (d : Record) → result ≡ Ok d → RunsRightly (P.Planariser.blocking graph.entry.planariser.now) (R.Reading.meaning graph.entry.host.now) source target budget d }
    ensures always { EveryRun }
{
    let mut packet = Packet::open(graph, source, target)?;
    for _sent in 0..budget {
        packet = match packet {
            Packet::Held(held) => go_on(held, graph),
            Packet::Ended(ended) => return Ok(ended.file()),
        };
    }
    Ok(packet.put_by())
}
