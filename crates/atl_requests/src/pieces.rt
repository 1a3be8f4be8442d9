//! A law: it makes no difference in which pieces a request arrives.
ghost use Rattle.atl_parsing.specs.Heads.{PiecesDoNotMatter};

/// Law: it doesn't matter in which pieces a request arrives. Does nothing: the law is its clause.
/// Bytes after a request that is whole or refused change nothing, and no input has two final
/// verdicts.
pub fn pieces_do_not_matter()
    ensures { PiecesDoNotMatter }
{}
