//! Runs to the end, within three sends for each kept link.
use crate::common::refusal;
use delivery::deliver;
use face::packet::Refusal;
use face::record::{Course, End, Link, Phase, Record};
use floor::node::Node;
use floor::planariser::Planariser;
use floor::planariser::gabriel::Gabriel;
use floor::planariser::relative::Relative;
use host::scan::ScanHost;
use host::sides::{Reading, Switching};
use host::table::TableHost;
use kept::links::KeptGraph;
use order::Place;
use plane::Point;
use std::process::Abort;
use std::test::Fail;
use worked::{ISLAND, KITE, MESH, RING};

// A run from node 0: its target, how many links are kept, and its end after how many sends.
#[derive(Clone, Copy)]
struct Run {
    target: u8,
    kept: u8,
    total: u8,
    end: End,
}

// To which end a run came, after how many sends.
fn came(answer: Result<Record, Refusal>) -> Result<(End, u16), Refusal> {
    answer.map(|record| (record.end, record.total))
}

// Checks a run with three sends for each kept link, with just enough, and with one too few.
fn check_run<R: Reading, P: Planariser>(rt: &impl Abort, graph: KeptGraph<'_, R, P>, run: Run) {
    let kept = u16::from(run.kept);
    let total = u16::from(run.total);
    assert_eq!(rt; graph.kept_links(), kept);
    for budget in [3 * kept, total] {
        assert_eq!(rt;
            came(deliver(graph, 0, run.target, budget)),
            Ok((run.end, total))
        );
    }
    assert!(rt; total > 0);
    let too_few = total - 1;
    assert_eq!(rt;
        came(deliver(graph, 0, run.target, too_few)),
        Ok((End::UnderWay, too_few))
    );
}

const KITE_GABRIEL: Run = Run {
    target: 3,
    kept: 4,
    total: 7,
    end: End::Delivered,
};

const KITE_RELATIVE: Run = Run {
    target: 3,
    kept: 3,
    total: 3,
    end: End::Delivered,
};

const ISLAND_GABRIEL: Run = Run {
    target: 3,
    kept: 3,
    total: 7,
    end: End::Unreachable,
};

const ISLAND_RELATIVE: Run = Run {
    target: 3,
    kept: 2,
    total: 4,
    end: End::Unreachable,
};

const MESH_GABRIEL: Run = Run {
    target: 8,
    kept: 12,
    total: 14,
    end: End::Delivered,
};

#[test]
fn ends_in_time(rt: HostRuntime) -> Result<(), Fail> {
    let kite: ScanHost = KITE.host(rt.alloc())?;
    check_run(&rt, KeptGraph::new(&kite, &Gabriel), KITE_GABRIEL);
    check_run(&rt, KeptGraph::new(&kite, &Relative), KITE_RELATIVE);
    let island: TableHost = ISLAND.host(rt.alloc())?;
    check_run(&rt, KeptGraph::new(&island, &Gabriel), ISLAND_GABRIEL);
    check_run(&rt, KeptGraph::new(&island, &Relative), ISLAND_RELATIVE);
    let mesh: TableHost = MESH.host(rt.alloc())?;
    check_run(&rt, KeptGraph::new(&mesh, &Gabriel), MESH_GABRIEL);
    Ok(())
}

const RING_WHOLE: Run = Run {
    target: 5,
    kept: 5,
    total: 6,
    end: End::Delivered,
};

const RING_GAP: Run = Run {
    target: 5,
    kept: 3,
    total: 4,
    end: End::Unreachable,
};

// Checks runs round a gap, and with node 2 withdrawn.
fn check_gap<H: Switching, P: Planariser>(rt: &impl Abort, host: &mut H, planariser: &P) {
    check_run(rt, KeptGraph::new(host, planariser), RING_WHOLE);
    host.withdraw(2);
    check_run(rt, KeptGraph::new(host, planariser), RING_GAP);
}

#[test]
fn ends_at_a_gap(rt: HostRuntime) -> Result<(), Fail> {
    let mut scan: ScanHost = RING.host(rt.alloc())?;
    check_gap(&rt, &mut scan, &Gabriel);
    let mut table: TableHost = RING.host(rt.alloc())?;
    check_gap(&rt, &mut table, &Relative);
    Ok(())
}

const FIRST: Link = Link { from: 0, to: 1 };

// The record of the packet from node 0 to node 3 of the kite's floor, not sent yet.
const OPENED: Record = Record {
    source: Node {
        number: 0,
        point: Point { x: 0, y: 5 },
    },
    target: Node {
        number: 3,
        point: Point { x: 13, y: 7 },
    },
    holder: 0,
    hand: Some(FIRST),
    course: Course {
        phase: Phase::Round,
        first: Some(FIRST),
        sends: 0,
        entry: Place { above: 0, below: 1 },
        best: None,
        walk: 0,
    },
    total: 0,
    end: End::UnderWay,
};

// Runs on the kite with node 1 withdrawn: source, target, and the number of the refusal, which is what is tested.
const RUNS: [(u8, u8, Option<u8>); 8] = [
    (0, 3, None),
    (200, 3, Some(43)),
    (0, 200, Some(43)),
    (4, 0, Some(43)),
    (1, 200, Some(43)),
    (1, 3, Some(44)),
    (0, 1, Some(44)),
    (1, 1, Some(44)),
];

#[test]
fn runs_or_refuses(rt: HostRuntime) -> Result<(), Fail> {
    let mut host: ScanHost = KITE.host(rt.alloc())?;
    let gabriel = KeptGraph::new(&host, &Gabriel);
    assert_eq!(rt; deliver(gabriel, 0, 3, 0), Ok(OPENED));
    assert_eq!(rt;
        deliver(KeptGraph::new(&host, &Relative), 0, 3, 0),
        Ok(OPENED)
    );
    assert_eq!(rt; came(deliver(gabriel, 2, 2, 0)), Ok((End::Delivered, 0)));
    host.withdraw(1);
    let gabriel = KeptGraph::new(&host, &Gabriel);
    for (source, target, number) in RUNS {
        assert_eq!(rt; refusal(deliver(gabriel, source, target, 12)), number);
    }
    Ok(())
}
