//! Laws: each function is a theorem, its contract, and costs nothing when it is called.
ghost use Rattle.tg_serve.specs.Promise.Meanings.{ServersMean};

/// How many rounds a server has, on an example, and what it means that it ends as differing, that it has served, and
/// that vaults were rebased in between.
pub fn servers_have_meanings()
    ensures { ServersMean }
{}
