//! Laws on the networks of a host: each depends only on its own lines.

ghost use Rattle.live_host.specs.Apart.{AlikeNetworksAreAnsweredAlike, AnswersAreGivenNextToOthers, AnswersAreLocal, HostsAreAlikeByNetworks, HostsStayOrdered, LinesAreAnsweredNextToOthers, LinesAreLocal, NetworksAreApart, NetworksFollowTheirOwnLines, NetworksGoOnByTheirOwnLines, NetworksOfAlikeHostsAreAlike, OrderAmongNetworksDoesNotCount, IdleLinesChangeNothing, ReachedHostsAreOrdered};

/// A law: the networks of a host are ascending by number, those that wait and those that run; none stands twice, and
/// none does both.
pub fn hosts_are_ordered()
    ensures line { HostsStayOrdered }
    ensures lines { ReachedHostsAreOrdered }
{}

/// A law: a line that does something to a network is answered as if there were no other, and changes no other; and any
/// other line changes nothing.
pub fn lines_are_local()
    ensures own { LinesAreLocal }
    ensures others { IdleLinesChangeNothing }
{}

/// A law: all that a line may ask of a network, questions too, is answered as if there were no other. A network that it
/// declares needs room.
pub fn answers_are_local()
    ensures alone { AnswersAreLocal }
    ensures next_to_others { AnswersAreGivenNextToOthers }
{}

/// A law: what a line may be answered by a host that has only its network, it may be answered next to others. There has
/// to be room for one more network.
pub fn lines_are_answered_next_to_others()
    ensures { LinesAreAnsweredNextToOthers }
{}

/// A law: if a network is alike in two hosts, its next line is answered alike, but for its number, whatever else they
/// host. The other has to have room for one more network.
pub fn alike_networks_are_answered_alike()
    ensures { AlikeNetworksAreAnsweredAlike }
{}

/// A law: a network depends only on its own lines. What it came to among others it comes to by these lines without the
/// others, and they are answered alike but for their numbers.
pub fn networks_follow_their_own_lines()
    ensures begun { NetworksFollowTheirOwnLines }
    ensures further { NetworksGoOnByTheirOwnLines }
{}

/// A law: networks are apart. If two hosts had the same lines of a network, what became of it in the one may become of
/// it in the other. These lines are answered as in the one, and nothing else of the other is different. At each of its
/// lines the other needs room for two more networks.
pub fn networks_are_apart()
    ensures { NetworksAreApart }
{}

/// A law: the order in which the lines of different networks came does not count, but that of the lines of each. Fewer
/// than 4,096 networks may have had lines.
pub fn order_among_networks_does_not_count()
    ensures { OrderAmongNetworksDoesNotCount }
{}

/// A law: hosts are alike if each of their networks is, by itself, and only then.
pub fn hosts_are_alike_by_networks()
    ensures hosts { HostsAreAlikeByNetworks }
    ensures networks { NetworksOfAlikeHostsAreAlike }
{}
