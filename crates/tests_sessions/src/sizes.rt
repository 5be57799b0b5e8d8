//! Long texts and arrays with many elements. None of them is refused.
use crate::doors::Door;
use apl_pool::{Every, Pool};
use apl_print::MemorySink;
use apl_session::{BLOCK, MemorySource, run};
use std::test::Fail;

/// A text constant, a function of two arguments and one of one argument give as many elements, and a number of them.
#[test]
fn many_elements(rt: HostRuntime) -> Result<(), Fail> {
    let alloc = rt.alloc();
    for count in [1 << 17, (1 << 20) + 1, 1 << 22] {
        let mut session = String::from_str(alloc, "A←'")?;
        for _ in 0..count {
            session.push('x')?;
        }
        session.push_str("'\nB←A='x'\nC←B+1\nD←C+C\nB←~B\n")?;
        for workers in [1, 4] {
            let pool = Pool::new(workers, Every(4096), Door::Open);
            let mut source = MemorySource::new(session.as_bytes(), BLOCK, None);
            let mut sink = MemorySink::new(alloc, BLOCK, None);
            let outcome = run(&rt, alloc, &pool, &mut source, &mut sink);
            assert!(rt;
                outcome.is_ok() && sink.bytes().is_empty(),
                "{count} elements"
            );
        }
    }
    Ok(())
}
