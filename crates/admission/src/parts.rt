// The parts of a finish figure (clause 7.3), within their limits, so that the figure fits.
ghost use Rattle.terms.specs.Limits.{max_places};
ghost use Rattle.admission.specs.Checked.{Parts};

use terms::units::Transfers;

// D, B, R, the place's own rate n, and j.
#[derive(Clone, Copy)]
pub struct FigureParts {
    pub d: u64,
    pub bursts: u64,
    pub left: u64,
    pub n: u64,
    pub j: Transfers,
    pub ghost fit: { Parts max_places d bursts left n j.0 },
}
