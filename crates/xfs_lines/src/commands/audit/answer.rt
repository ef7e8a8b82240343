//! What the lines of the command `audit` hand in, and the verdict of it.

ghost use Rattle.std.specs.Prelude.{◌≡◌, ◌∷◌, [], IfOk, OnErr, OnOk};
ghost use Rattle.xfs_script.specs.Answered.{lines_text};
ghost use Rattle.xfs_lines.specs.Audit.Verbs.{TellsVerdict, handed_of, nothing, verdict_text, with_line};

use std::alloc::Global;
use xfs_audit::{Rule, Verdict, audit};
use xfs_base::{Counts, Memory, Places, UnitTable};
use xfs_guard::BootFault;
use xfs_journal::Rec;
use xfs_mech::Motion;
use xfs_script::{Answerer, AuditLine, ScriptFault, Unanswered, read_audit};

const NO_NOTES: Counts = Counts([0; 8]);

/// The places where nothing lies.
const NOWHERE: Places = Places {
    units: NO_NOTES,
    transport: NO_NOTES,
    outlet: NO_NOTES,
    taken: NO_NOTES,
    retracted: NO_NOTES,
    rejected: NO_NOTES,
};

/// What was handed in.
#[derive(Drop)]
pub struct Auditor {
    pub alloc: Global,
    pub records: Vec<Rec>,
    pub motions: Vec<Motion>,
    pub from: Places,
    pub to: Places,
}

impl Answerer for Auditor {
    ghost use Rattle.std.specs.Prelude.{⊤};
    ghost use Rattle.std.proofs.Common.{refl};
    ghost use Rattle.xfs_lines.specs.Audit.Verbs.{Handed, audit_lines, handed_of, is-line};

    type End = BootFault;

    ghost State = { Handed };

    ghost state = { handed_of };

    ghost command = { audit_lines };

    ghost Keeps = { λ old new. ⊤ };

    fn answer(&mut self, line: &[u8]) -> Result<Vec<u8>, Unanswered<BootFault>> {
        let verb = match read_audit(self.alloc, line) {
            Ok(verb) => verb,
            Err(ScriptFault::NotALine) => return Err(Unanswered::NotALine),
            Err(ScriptFault::Memory) => return Err(Unanswered::Memory),
        };
        match self.take_in(verb) {
            Ok(()) => Ok(Vec::new(self.alloc)),
            Err(_) => Err(Unanswered::Memory),
        }
    }

    ghost keeps_same = { λ a. tt };

    ghost keeps_then = { λ a b c first then. tt };

    ghost leaves_same = { λ h line. refl };

    ghost is_short = { λ line is. is.short };

    ghost is_line = { is-line };
}

impl Auditor {
    /// Nothing was handed in yet.
    pub fn new(alloc: Global) -> Auditor
        ensures { handed_of result ≡ nothing }
    {
        Auditor {
            alloc,
            records: Vec::new(alloc),
            motions: Vec::new(alloc),
            from: NOWHERE,
            to: NOWHERE,
        }
    }

    // Takes in what a line hands in.
    fn take_in(&mut self, verb: AuditLine) -> Result<(), Memory>
        ensures ok { OnOk result (handed_of self.new ≡ with_line (handed_of self.old) verb) }
        ensures err { OnErr result (handed_of self.new ≡ handed_of self.old) }
    {
        match verb {
            AuditLine::Skip => {}
            AuditLine::Body(record) => {
                if self.records.push(record).is_err() {
                    return Err(Memory);
                }
            }
            AuditLine::Entry(entry) => {
                if self.motions.push(entry).is_err() {
                    return Err(Memory);
                }
            }
            AuditLine::From(places) => self.from = places,
            AuditLine::To(places) => self.to = places,
        }
        Ok(())
    }

    /// The line of the verdict, with its line feed.
    pub fn verdict(&self, key: &[u8; 32], units: &UnitTable) -> Result<&'static [u8], Memory>
        ensures { IfOk result (λ line. TellsVerdict key.now units.now (handed_of self.now) line.now) }
    {
        let verdict = audit(
            self.alloc,
            key,
            units,
            self.records.as_slice(),
            self.motions.as_slice(),
            &self.from,
            &self.to,
        )?;
        Ok(verdict_line(verdict))
    }
}

fn verdict_line(verdict: Verdict) -> &'static [u8]
    ensures { result.now ≡ lines_text (verdict_text verdict ∷ []) }
{
    match verdict {
        Verdict::Clean => b"clean\n",
        Verdict::Broken(Rule::Agrees) => b"broken agrees\n",
        Verdict::Broken(Rule::Numbered) => b"broken numbered\n",
        Verdict::Broken(Rule::Within) => b"broken within\n",
        Verdict::Broken(Rule::Places) => b"broken places\n",
    }
}
