//! The stores of a let: the info word, both operand words, and last the station's.
ghost use Rattle.std.specs.Prelude.{◌<◌};
ghost use Rattle.inorder.specs.StationWords.{live_word};
ghost use Rattle.inorder.specs.Tenants.{Open};
ghost use Rattle.ruu_words.specs.declared.rule.Draft.TheVariants.{Nothing};
ghost use Rattle.ruu_words.specs.declared.rule.Stage.TheVariants.{BothOperands, FirstOperand, Info};
ghost use Rattle.ruu_words.specs.Content.{IsOperandOf, IsStation};
ghost use Rattle.ruu_words.specs.Kinds.{Drafts};
ghost use Rattle.station.specs.Letting.{ShowsTenant, draft_of, given_value};
ghost use Rattle.station.specs.Calls.{IsAbout, LetsTenant, TakesStep, new_operand, new_tag};

use crate::answers::Tenant;
use crate::call::Call;
use crate::seat::FrontPart;
use inorder::history::Source;
use ruu_words::Place;
use std::marker::Brand;

impl<'a> Call<'a, FrontPart> {
    /// Stores the info word of the tenant that is about to be let.
    pub(crate) fn store_info(&mut self, station: usize, word: u64, tenant: Tenant)
        requires letting { IsAbout self.old station Nothing tenant }
        requires word { ShowsTenant tenant word }
        ensures { TakesStep self.old self.new (λ P C. Drafts P C (draft_of Info tenant)) }
    {
        self.store::<Brand, Tenant>(Place::Info(station), word, tenant);
    }

    /// Stores the word of its first operand.
    pub(crate) fn store_first(&mut self, station: usize, word: u64, tenant: Tenant)
        requires letting { IsAbout self.old station (draft_of Info tenant) tenant }
        requires word { IsOperandOf (new_operand self.old (given_value tenant.sources.0)) word }
        ensures { TakesStep self.old self.new (λ P C. Drafts P C (draft_of FirstOperand tenant)) }
    {
        let place = Place::Operand(station, Source::First);
        self.store::<Brand, Tenant>(place, word, tenant);
    }

    /// Stores the word of its second operand.
    pub(crate) fn store_second(&mut self, station: usize, word: u64, tenant: Tenant)
        requires letting { IsAbout self.old station (draft_of FirstOperand tenant) tenant }
        requires word { IsOperandOf (new_operand self.old (given_value tenant.sources.1)) word }
        ensures { TakesStep self.old self.new (λ P C. Drafts P C (draft_of BothOperands tenant)) }
    {
        let place = Place::Operand(station, Source::Second);
        self.store::<Brand, Tenant>(place, word, tenant);
    }

    /// Stores the word of its station: the tenant is let.
    pub(crate) fn let_tenant(&mut self, station: usize, word: u64, tenant: Tenant)
        requires letting { IsAbout self.old station (draft_of BothOperands tenant) tenant }
        requires word { IsStation (live_word (new_tag self.old) Open) word }
        ensures { TakesStep self.old self.new (LetsTenant tenant) }
    {
        self.store::<Brand, Tenant>(Place::Station(station), word, tenant);
    }
}
