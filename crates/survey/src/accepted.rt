// A town whose survey the check has accepted: what the engines are given, so that none of them asks for it again.
ghost use Rattle.survey.specs.Town.{lent};
ghost use Rattle.survey.specs.Accepted.{Accepted};

use crate::Town;

#[derive(Clone, Copy)]
pub struct AcceptedTown<'a> {
    pub town: Town<'a>,
    pub ghost accepted: { Accepted (lent town) },
}
