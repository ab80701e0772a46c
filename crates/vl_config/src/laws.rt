//! What holds of every text.
ghost use Rattle.std.specs.Prelude.{◌≡◌, ℕ, List, Ok, Err};
ghost use Rattle.es_base.specs.Config.{Configuration};
ghost use Rattle.vl_config.specs.declared.fault.ConfigFault.{ConfigFault};
ghost use Rattle.vl_config.specs.Document.{config_in};
ghost use Rattle.vl_config.specs.Place.{nowhere, fault_place_of};
ghost use Rattle.vl_config.specs.PlaceLaws.{IsFaultAt};

/// The fault of a text is that of its place: the tables before it are read without a fault, and the one there has this
/// fault; at no link, it comes before all links. A text with a configuration has no such place.
pub fn each_fault_is_that_of_its_place()
    ensures fault { (text : List ℕ) (fault : ConfigFault) → config_in text ≡ Err fault → IsFaultAt text (fault_place_of text) fault }
    ensures none { (text : List ℕ) (config : Configuration) → config_in text ≡ Ok config → fault_place_of text ≡ nowhere }
{}
