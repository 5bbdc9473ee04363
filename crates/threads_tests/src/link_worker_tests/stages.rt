//! The stages of a job, by what its calls are answered.

use materialization::{Stage, first_stage, next_stage, stopped_stage};
use orc_ids::{GenId, InstId, Stop, UnitId};
use session_model::{Finishing, Reply, Why};

#[test]
fn a_job_goes_on_by_its_replies(rt: HostRuntime) {
    let start = Reply::Start(UnitId(0));
    assert!(rt; matches!(first_stage(&start, false, true), Stage::Place));
    assert!(rt; matches!(first_stage(&start, false, false), Stage::Resolve));
    assert!(rt; matches!(first_stage(&start, true, false), Stage::Link));
    assert!(rt;
        matches!(
            next_stage(Stage::Place, &Reply::Placed(0x1000_0000)),
            Stage::Resolve
        )
    );
    assert!(rt;
        matches!(
            next_stage(Stage::Place, &Reply::NoRoom(16)),
            Stage::Fail(Why::NoRoom(16))
        )
    );
    assert!(rt; matches!(next_stage(Stage::Resolve, &Reply::Resolved), Stage::Link));
    assert!(rt;
        matches!(
            next_stage(Stage::Link, &Reply::Offer(GenId(3))),
            Stage::Generate(GenId(3))
        )
    );
    assert!(rt;
        matches!(
            next_stage(Stage::Generate(GenId(3)), &Reply::Spent(GenId(3))),
            Stage::Link
        )
    );
    assert!(rt;
        matches!(
            next_stage(Stage::Emit, &Reply::BadDep(InstId(2))),
            Stage::Fail(Why::BadDep(InstId(2)))
        )
    );
    assert!(rt; matches!(next_stage(Stage::Emit, &Reply::Emitted), Stage::Over));
}

#[test]
fn a_job_ends_where_its_unit_is_gone(rt: HostRuntime) {
    let gone = Reply::Defunct(UnitId(0));
    assert!(rt; matches!(next_stage(Stage::Place, &gone), Stage::Over));
    assert!(rt; matches!(next_stage(Stage::ResolveAlias, &gone), Stage::Over));
    let lost = Reply::Finish(UnitId(0), Finishing::Lost(InstId(1)));
    assert!(rt;
        matches!(
            first_stage(&lost, true, false),
            Stage::Fail(Why::InError(InstId(1)))
        )
    );
    assert!(rt; matches!(stopped_stage(Stop::JournalFull(9)), Stage::Fail(Why::Full)));
    assert!(rt; matches!(stopped_stage(Stop::NoMemory), Stage::Fail(Why::NoMemory)));
}
