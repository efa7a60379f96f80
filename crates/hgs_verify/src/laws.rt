//! What the definitions of this crate imply. Each function is one law; none does anything but name the laws below that
//! its proof takes.
ghost use Rattle.std.specs.Prelude.{◌≡◌, ◌↔◌, ℕ, List, [], Ok};
ghost use Rattle.hex.specs.Hex.{IsBytes};
ghost use Rattle.hgs_files.specs.Tree.{Tree, bytes_at};
ghost use Rattle.hgs_model.specs.Repo.{Repo};
ghost use Rattle.hgs_stands.specs.Stands.{IsClean};
ghost use Rattle.hgs_findings.specs.Findings.{AreWithin};
ghost use Rattle.hgs_judge.specs.Report.{findings_in};
ghost use Rattle.hgs_load.specs.Open.{requires_path};
ghost use Rattle.hgs_load.specs.Requirements.{requires_answer};
ghost use Rattle.hgs_verify.specs.declared.report.Report.{Report};
ghost use Rattle.hgs_verify.specs.Report.{IsReportOf};

use hgs_findings::laws::empty_exactly_where_clean;

/// Of a tree whose requirements are of the profile a report is empty exactly where the tree is clean for some repository
/// within the limits.
pub fn empty_reports()
    ensures { (t : Tree) (report : Report) → ((path : List ℕ) → IsBytes (bytes_at t path)) → requires_answer (t requires_path) ≡ Ok tt → IsReportOf report t → (findings_in report.findings.items ≡ [] ↔ ((r : Repo) × IsClean t r × AreWithin t r)) }
{
    empty_exactly_where_clean();
}
