//! The triples policy: it remembers for each seat which rows may still cover what its procedure was given.
ghost use Rattle.std.specs.Prelude.{◌≡◌, ℕ, ◌<◌, ◌&&◌, ◌||◌, [], ◌∷◌, false};
ghost use Rattle.std.specs.Option.{MatchOption};
ghost use Rattle.policy.specs.declared.place.Place.{Place};
ghost use Rattle.policy.specs.declared.words.DataType.TheVariants.{Cdi, Cdiic};
ghost use Rattle.policy.specs.Records.{content_is};
ghost use Rattle.associations.specs.Associations.{row_at};
ghost use Rattle.triples.specs.RowSets.{has};
ghost use Rattle.triples.specs.Triples.{row_has, chart_of, no_candidates, triples_leaf, is_of, lists_object, candidate_after, manage_verdict, give_away_verdict, execute_verdict, open_verdict, triples_verdict};
ghost use Rattle.triples.specs.Kept.{kept_chart, candidates_of, kept_leaf};

use crate::row_set::RowSet;
use associations::associations::Associations;
use associations::rows::Row;
use policy::interface::Policy;
use policy::place::Place;
use policy::record::Record;
use policy::words::{DataType, IntegrityRole, Kind, ProgramType, Verdict};
use std::array;

#[derive(Drop)]
pub struct Triples {
    // arrays, since nothing may be allocated
    rows: [Option<Row>; 32],
    /// for each object, the rows that list it
    listing: [RowSet; 64],
    /// for each seat, the rows that still cover all that its procedure was given
    candidates: [RowSet; 32],
}

impl Triples {
    /// The number of the leaf.
    const NUMBER: u8 = 2;

    /// The policy of the rows and cells as they stand, with no candidates.
    pub fn new(associations: &Associations) -> Triples
        ensures { kept_leaf result ≡ triples_leaf (chart_of associations.now) no_candidates }
    {
        let rows = associations.rows();
        // `from_fn` calls this at indices below 64 alone, so the `requires` asks nothing and `as` loses nothing
        let listing = array::from_fn(
            |index| -> RowSet
                requires { index < 64 }
            { rows_with(&rows, associations, Place { index: index as u8 }) },
        );
        Triples {
            rows,
            listing,
            candidates: [RowSet::none(); 32],
        }
    }

    /// The rows that list the record's object.
    fn rows_listing(&self, access: &Record) -> RowSet
        ensures { (k : ℕ) → has result k ≡ lists_object (kept_chart self.now) access.now k }
    {
        access
            .target
            .object
            .map_or(RowSet::none(), |item| self.listing[usize::from(item)])
    }

    /// The rows of the record's owner and object.
    fn rows_of(&self, access: &Record) -> RowSet
        ensures { (k : ℕ) → has result k ≡ is_of (kept_chart self.now) access.now k }
    {
        // read once, and not for each row
        let owner = access.subject.owner;
        access.target.object.map_or(RowSet::none(), |procedure| {
            rows_where(&self.rows, |row| {
                row.user == owner && row.procedure == procedure
            })
        })
    }

    /// The candidates of the record's seat, narrowed to those that list its object.
    fn narrowed(&self, access: &Record) -> RowSet
        ensures { (k : ℕ) → has result k ≡ (candidates_of self.now access.now k && lists_object (kept_chart self.now) access.now k) }
    {
        let candidates = self.candidates[usize::from(access.subject.seat)];
        candidates.both(self.rows_listing(access))
    }

    /// The candidates of the record's seat once it has been noted.
    fn candidates_after(&self, access: &Record) -> RowSet
        ensures { (k : ℕ) → has result k ≡ candidate_after (kept_chart self.now) access.now k (candidates_of self.now access.now k) }
    {
        // By number and range, as the lines are listed: the definition goes by names, so the two cannot share a slip.
        match u8::from(access.request) {
            9
                if access.subject.runs == ProgramType::Nil
                    && access.target.program == ProgramType::Tp => self.rows_of(access),
            8 | 17..=18 | 24 if access.target.content == DataType::Cdi => self.narrowed(access),
            21 => RowSet::none(),
            _ => self.candidates[usize::from(access.subject.seat)],
        }
    }

    /// The first line that fits decides.
    fn verdict(&self, access: &Record) -> Verdict
        ensures { result ≡ triples_verdict (kept_chart self.now) (candidates_of self.now access.now) access.now }
    {
        // By number and range, as the lines are listed: the definition goes by names, so the two cannot share a slip.
        match u8::from(access.request) {
            5 if access.subject.runs == ProgramType::Nil => Verdict::DontCare,
            5 => Verdict::No,
            9 => self.execute_verdict(access),
            8 | 17..=18 | 24 if is_constrained(access) => self.open_verdict(access),
            1 | 7 | 10..=12 | 14 => manage_verdict(access),
            3 => give_away_verdict(access),
            4 | 13 | 16 | 22 => Verdict::Undefined,
            _ => Verdict::DontCare,
        }
    }

    fn execute_verdict(&self, access: &Record) -> Verdict
        ensures { result ≡ execute_verdict (kept_chart self.now) (candidates_of self.now access.now) access.now }
    {
        let role = access.subject.integrity;
        match (access.subject.runs, access.target.program) {
            (ProgramType::Nil, ProgramType::Nil) => Verdict::DontCare,
            (process, program) if process == program => Verdict::Yes,
            (ProgramType::Nil, ProgramType::Tp) if role == IntegrityRole::TpUser => Verdict::yes_if(
                self.rows_of(access).any(),
            ),
            (ProgramType::Nil, ProgramType::Ivp) if role == IntegrityRole::IvpUser => Verdict::Yes,
            (ProgramType::Nil, ProgramType::Tpicd) if role == IntegrityRole::TpManager =>
                Verdict::Yes,
            _ => Verdict::No,
        }
    }

    /// Of constrained items and integrity-control data.
    fn open_verdict(&self, access: &Record) -> Verdict
        ensures { result ≡ open_verdict (kept_chart self.now) (candidates_of self.now access.now) access.now }
    {
        match (access.target.content, access.subject.runs) {
            _ if access.target.kind != Kind::File => Verdict::Undefined,
            (DataType::Cdi, ProgramType::Ivp) => Verdict::Yes,
            (DataType::Cdi, ProgramType::Tp) => Verdict::yes_if(self.narrowed(access).any()),
            (DataType::Cdiic, ProgramType::Tpicd) => Verdict::Yes,
            _ => Verdict::No,
        }
    }
}

impl Policy for Triples {
    ghost leaves = { λ t. kept_leaf t ∷ [] };

    fn judge(&self, access: &Record) -> (Verdict, u8) {
        self.verdict(access).by(Self::NUMBER)
    }

    fn note(&mut self, access: &Record) {
        self.candidates[usize::from(access.subject.seat)] = self.candidates_after(access);
    }
}

/// Whether the data is a constrained item or integrity-control data.
fn is_constrained(access: &Record) -> bool
    ensures { result ≡ (content_is access.now Cdi || content_is access.now Cdiic) }
{
    matches!(access.target.content, DataType::Cdi | DataType::Cdiic)
}

/// Of programs and data that integrity rests on: who manages their kind may look after them.
fn manage_verdict(access: &Record) -> Verdict
    ensures { result ≡ manage_verdict access.now }
{
    let role = access.subject.integrity;
    match (access.target.program, access.target.content) {
        (ProgramType::Tp | ProgramType::Tpicd, _) | (_, DataType::Cdi) => Verdict::yes_if(
            role == IntegrityRole::TpManager,
        ),
        (ProgramType::Ivp, _) | (_, DataType::Cdiic) => Verdict::yes_if(
            role == IntegrityRole::IvpManager,
        ),
        _ => Verdict::DontCare,
    }
}

/// Nobody gives them to another owner.
fn give_away_verdict(access: &Record) -> Verdict
    ensures { result ≡ give_away_verdict access.now }
{
    match (access.target.program, access.target.content) {
        (ProgramType::Nil, DataType::Nil | DataType::Si) => Verdict::DontCare,
        _ => Verdict::No,
    }
}

/// The rows that list the item.
fn rows_with(rows: &[Option<Row>; 32], associations: &Associations, item: Place<64>) -> RowSet
    ensures { (k : ℕ) → has result k ≡ row_has associations.now (row_at rows.now k) item }
{
    rows_where(rows, |row| associations.lists(&row, item))
}

/// The rows that pass the test. The `requires` says that the test may be made of any row.
fn rows_where<F: Fn(Row) -> bool>(rows: &[Option<Row>; 32], passes: F) -> RowSet
    requires { F.IsAlwaysCallable passes }
    ensures { (k : ℕ) → MatchOption (row_at rows.now k) (has result k ≡ false) (λ row. F.post passes row (has result k)) }
{
    let mut set = RowSet::none();
    // A counted loop: over `(0..32).zip(rows)` the check proved neither the bound of the place nor the invariant nor the end.
    for index in 0..32 {
        let place = Place { index };
        if rows[usize::from(place)].is_some_and(&passes) {
            set = set.with(place);
        }
    }
    set
}
