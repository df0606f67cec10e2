// What a draft tells, and what it takes. Each contract says that a refusal changes nothing, so that a caller has one to read.
ghost use Rattle.std.specs.Prelude.{◌≡◌, true, false, [], ◌∷◌, is_err};
ghost use Rattle.envelopes.specs.Drafts.{add_causes, cf0_causes, profile, rows_of, with_cf0, with_flow};
ghost use Rattle.envelopes.specs.Profiles.{all_rates, coupled};
ghost use Rattle.envelopes.specs.Refusals.{told};
ghost use Rattle.tokens.specs.Refusals.{kept_if_refused, unless_refused};

use crate::draft::Draft;
use crate::refusal::Refusal;
use crate::row::Row;
use arrayvec::ArrayVec;
use tokens::units::HIGHEST_RATE;

impl Draft {
    /// A draft of one flow, rank 1, with CF0 0.
    pub fn new(row: Row) -> Self
        ensures { profile result ≡ record { flows = row.flow ∷ []; cf0 = false } }
    {
        let mut rows = ArrayVec::new();
        rows.push(row);
        Draft { rows, cf0: false }
    }

    /// The rows by rank, rank 1 first.
    pub fn rows(&self) -> &[Row]
        ensures { result.now ≡ rows_of self.now }
    {
        self.rows.as_slice()
    }

    pub fn cf0(&self) -> bool
        ensures { result ≡ (profile self.now).cf0 }
    {
        self.cf0
    }

    // The sum of all rates.
    fn rates(&self) -> u64
        ensures { result ≡ all_rates (profile self.now).flows }
    {
        self.rows().iter().map(Row::rates).sum()
    }

    // Whether some CF is 1.
    fn is_coupled(&self) -> bool
        ensures { result ≡ coupled (profile self.now).flows }
    {
        self.rows().iter().any(|row| row.flow().cf)
    }

    /// Gives a further flow the next higher rank.
    pub fn add(&mut self, row: Row) -> Result<(), Refusal>
        ensures value { told result ≡ unless_refused (add_causes (profile self.old) row.flow) tt }
        ensures after { profile self.new ≡ kept_if_refused (add_causes (profile self.old) row.flow) (profile self.old) (with_flow (profile self.old) row.flow) }
        ensures refused { is_err result ≡ true → self.new ≡ self.old }
    {
        if self.rows.is_full() {
            return Err(Refusal::NinthFlow);
        }
        if self.cf0 && (self.is_coupled() || row.flow().cf) {
            return Err(Refusal::BothFlags);
        }
        if row.rates() + self.rates() > HIGHEST_RATE {
            return Err(Refusal::SumOfRates);
        }
        self.rows.push(row);
        Ok(())
    }

    /// Sets the coupling flag CF0 of the whole.
    pub fn set_cf0(&mut self, cf0: bool) -> Result<(), Refusal>
        ensures value { told result ≡ unless_refused (cf0_causes (profile self.old) cf0) tt }
        ensures after { profile self.new ≡ kept_if_refused (cf0_causes (profile self.old) cf0) (profile self.old) (with_cf0 (profile self.old) cf0) }
        ensures refused { is_err result ≡ true → self.new ≡ self.old }
    {
        if cf0 && self.is_coupled() {
            return Err(Refusal::BothFlags);
        }
        self.cf0 = cf0;
        Ok(())
    }
}
