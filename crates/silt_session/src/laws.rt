// A law of what sessions are told, for the callers.
ghost use Rattle.silt_session.specs.Ledgers.{LedgerLaw};

/// Sessions with different numbers are told of no more accepted commands than their log has.
pub fn ledger_law()
    ensures { LedgerLaw }
{}
