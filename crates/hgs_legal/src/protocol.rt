//! The protocol of a repository.
use hgs_files::protocol::Protocol;

/// What writers may do to the files of a repository: the lists of operations that are legal, of which each front is. That a list is
/// legal says that it leads somewhere, and not where: a writing end that many share knows no more of what was done by it.
pub struct HgProtocol;

impl Protocol for HgProtocol {
    ghost use Rattle.hgs_legal.specs.LegalLog.{IsLegal};
    ghost use Rattle.hgs_legal.specs.Theorems.Protocol.{nothing-legal, front-of-legal, piece-of-legal};

    ghost legal = { λ start log. ∥ IsLegal start log ∥₁ };

    ghost legal_empty = { nothing-legal };

    ghost legal_front = { front-of-legal };

    ghost legal_piece = { λ start log left op piece part legal. piece-of-legal start log op piece left legal part };
}
