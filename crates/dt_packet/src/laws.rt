//! What holds of every plan. Each law is the contract of a function that does nothing.
ghost use Rattle.dt_packet.specs.Loss.{EachHasOneVerdict, OneOfTwoIsPut};

/// Each packet has just one verdict.
pub fn each_packet_has_one_verdict()
    ensures { EachHasOneVerdict }
{}

/// Of two packets in a row at least one is put, unless the plan loses all.
pub fn one_of_two_packets_is_put()
    ensures { OneOfTwoIsPut }
{}
