// The cases of a module, as plain values and as text.
use dx_engine::Diagnoser;
use std::alloc::{AllocError, Global};
use test_words::ScriptFault;

/// The number of a case, and how many reports an open one has, or suspects a solved one.
#[derive(Clone, Copy, Drop)]
pub struct CaseRow {
    pub case: u64,
    pub count: u64,
}

/// What has cases.
pub trait Cases {
    /// The open cases, in order of number.
    fn open_cases(&self, alloc: Global) -> Result<Vec<CaseRow>, ScriptFault>;

    /// The solved cases, in order of number.
    fn solved_cases(&self, alloc: Global) -> Result<Vec<CaseRow>, ScriptFault>;
}

impl Cases for Diagnoser {
    fn open_cases(&self, alloc: Global) -> Result<Vec<CaseRow>, ScriptFault> {
        let open = self.open_rows(alloc)?;
        let mut rows = Vec::new(alloc);
        for row in open.as_slice() {
            rows.push(CaseRow {
                case: row.case.case,
                count: row.reports,
            })?;
        }
        Ok(rows)
    }

    fn solved_cases(&self, alloc: Global) -> Result<Vec<CaseRow>, ScriptFault> {
        let mut rows = Vec::new(alloc);
        for word in self.solved() {
            rows.push(CaseRow {
                case: word.case.case,
                count: word.suspects.as_slice().len() as u64,
            })?;
        }
        Ok(rows)
    }
}

/// Appends cases, each with whether it is `open` or `solved`, and its count of reports or suspects.
pub fn put_cases(rows: &[CaseRow], kind: &str, text: &mut String) -> Result<(), AllocError> {
    for row in rows {
        let case = row.case;
        let count = row.count;
        write!(text, "; dx0/{case} {kind} {count}")?;
    }
    Ok(())
}
